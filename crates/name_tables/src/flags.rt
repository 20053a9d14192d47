//! Modifiers.
#![tactic(auto)]

ghost use Rattle.std.specs.Prelude.{◌≡◌};
ghost use Rattle.name_laws.specs.Answers.{GivesValue};
ghost use Rattle.name_laws.specs.Classes.{is_taken, noted, flag, flags_of};
ghost use Rattle.name_rules.specs.Conditions.{is_unfit};

use java_tree::Modifier;
use kaba_base::Keyword;
use name_laws::Flags;
use name_rules::{Form, Kind, Refusal};

/// Whether the modifier cannot stand there.
fn is_unfit(kind: Kind, word: Keyword) -> bool
    ensures { result ≡ is_unfit kind word }
{
    match kind {
        Kind::Class => matches!(word, Keyword::Static),
        Kind::Interface => matches!(word, Keyword::Static),
        Kind::Field => matches!(word, Keyword::Abstract),
        Kind::Head => matches!(
            word,
            Keyword::Protected | Keyword::Private | Keyword::Static | Keyword::Final
        ),
        Kind::Method => false,
        Kind::Maker => matches!(word, Keyword::Abstract | Keyword::Static | Keyword::Final),
    }
}

/// Whether the modifier stands already, or one that disagrees with it.
fn is_taken(flags: Flags, word: Keyword) -> bool
    ensures { result ≡ is_taken flags word }
{
    match word {
        Keyword::Public => flags.is_public,
        Keyword::Protected => flags.is_protected,
        Keyword::Private => flags.is_private | flags.is_abstract,
        Keyword::Abstract => flags.is_abstract | flags.is_private | flags.is_static,
        Keyword::Static => flags.is_static | flags.is_abstract,
        Keyword::Final => flags.is_final,
        _ => false,
    }
}

/// The flags with one more.
fn noted(flags: Flags, word: Keyword) -> Flags
    ensures { result ≡ noted flags word }
{
    let mut new = flags;
    match word {
        Keyword::Public => new.is_public = true,
        Keyword::Protected => new.is_protected = true,
        Keyword::Private => new.is_private = true,
        Keyword::Abstract => new.is_abstract = true,
        Keyword::Static => new.is_static = true,
        Keyword::Final => new.is_final = true,
        _ => {}
    }
    new
}

/// One modifier more.
fn flag(kind: Kind, flags: Flags, modifier: &Modifier) -> Result<Flags, Refusal>
    ensures { GivesValue (λ f. f) result (flag kind flags modifier.now) }
{
    if is_taken(flags, modifier.word) | is_unfit(kind, modifier.word) {
        return Err(Refusal::NotInProfile(Form::Modifier, modifier.place));
    }
    Ok(noted(flags, modifier.word))
}

/// The modifiers before something; `NotInProfile` where one stands twice or does not fit.
pub fn flags_of(kind: Kind, mods: &[Modifier]) -> Result<Flags, Refusal>
    ensures { GivesValue (λ f. f) result (flags_of kind mods.now) }
{
    let mut flags = Flags {
        is_public: false,
        is_protected: false,
        is_private: false,
        is_abstract: false,
        is_static: false,
        is_final: false,
    };
    for modifier in mods {
        flags = flag(kind, flags, modifier)?;
    }
    Ok(flags)
}
