//! The words of the command line.
#![tactic(auto)]

ghost use Rattle.std.specs.Prelude.{◌≡◌, ◌∷◌, ◌≤◌, ℕ, Bool, true, false, List, [], Err, IfOk, MatchOption, IsTrue, ◌↔◌, length, codes, string_bytes};
ghost use Rattle.std.specs.List.{All};
ghost use Rattle.kaba_words.specs.Commands.{Cmd, texts, command_of, IsNumberWord, Fits, FitsNone, FitsRun, TakesFlag, BoundAfter, TakesBound, FitsLattice, FitsWhy, row_word, column_word, FitsEdit, NoEdit, FitsMake, NoMake, most_units, most_numbers};
ghost use Rattle.kaba_words.specs.declared.words.WordsFault.TheVariants as WordsFault;

use std::alloc::{AllocError, Global};

/// What the words ask for.
#[derive(Drop)]
pub enum Command {
    /// `run FILE STEPS WORD..`: the output of the file's program on the words, within the steps.
    Run(String, u32, Vec<String>),
    /// `table FILE`: the table of the file's program.
    Table(String),
    /// `lattice [-j] [-c N] FILE`: its lattice, as JSON or not, of at most N concepts.
    Lattice(bool, u32, String),
    /// `base FILE`: the least base of implications of the table of the file's program.
    Base(String),
    /// `why FILE ROW COLUMN`: why the row of this number has the column of this number.
    Why(String, u32, u32),
    /// `sure FILE`: what is sure of every run of the file's program.
    Sure(String),
    /// `same FILE FILE`: whether the programs of the two files are one.
    Same(String, String),
    /// `edit [-c N] FILE SCRIPT`: the hierarchy of the file's program after the edits of the script.
    Edit(u32, String, String),
    /// `regen [-c N] FILE SCRIPT`: the program that is written of that hierarchy, once its classes are a tree.
    Regen(u32, String, String),
    /// `make [-p] NUMBER`: what the whole job comes to on the sample program of that size, or its text.
    Make(bool, u32),
    /// `--help`: what the program takes and gives.
    Help,
    /// `--version`: which version it is.
    Version,
}

/// Why the words say no command.
#[derive(Clone, Copy)]
pub enum WordsFault {
    /// They fit no pattern.
    Usage,
    /// Memory is short.
    Memory,
}

/// What a call made; where memory is short, the function ends with that fault.
macro_rules! made {
    ($call:expr) => {
        match $call {
            Ok(made) => made,
            Err(_) => return Err(WordsFault::Memory),
        }
    };
}

/// The words that are not read yet.
#[derive(Drop)]
struct Arguments<'a> {
    words: &'a [String],
}

impl<'a> Arguments<'a> {
    /// The next word.
    fn next(&mut self) -> Option<&'a str>
        ensures { MatchOption result (texts self.old.words.now ≡ []) (λ word. texts self.old.words.now ≡ word.now ∷ texts self.new.words.now) }
    {
        match self.words {
            [] => None,
            [word, more @ ..] => {
                self.words = more;
                Some(word.as_str())
            }
        }
    }

    /// Takes the next word where it is this one.
    fn flag(&mut self, wanted: &str) -> bool
        ensures { TakesFlag wanted.now (texts self.old.words.now) result (texts self.new.words.now) }
    {
        let mut after = Arguments { words: self.words };
        let Some(word) = after.next() else {
            return false;
        };
        if word == wanted {
            self.words = after.words;
            return true;
        }
        false
    }

    /// Whether no word is left.
    fn is_done(&self) -> bool
        ensures { IsTrue result ↔ (texts self.now.words.now ≡ []) }
    {
        self.words.is_empty()
    }

    /// The last word.
    fn last(&mut self) -> Option<&'a str>
        ensures { MatchOption result ((word : List ℕ) → texts self.old.words.now ≡ word ∷ [] → ⊥) (λ word. texts self.old.words.now ≡ word.now ∷ []) }
    {
        match self.words {
            [] => None,
            [word] => Some(word.as_str()),
            [_, _, ..] => None,
        }
    }
}

/// The number that the word writes, in decimal digits without a leading zero, where it is at most `limit`;
/// `AllocError` comes where memory is short.
pub fn number(alloc: Global, word: &str, limit: u32) -> Result<Option<u32>, AllocError>
    ensures { IfOk result (λ read. MatchOption read ((n : ℕ) → IsNumberWord word.now limit n → ⊥) (λ n. IsNumberWord word.now limit n)) }
{
    match word.parse::<u32>() {
        Err(_) => Ok(None),
        Ok(n) => {
            if n > limit {
                return Ok(None);
            }
            let written = format!(in alloc; "{n}")?;
            if written.as_str() == word {
                Ok(Some(n))
            } else {
                Ok(None)
            }
        }
    }
}

/// Whether no word has more bytes than one may have.
fn are_short(words: &[String]) -> bool
    ensures { IsTrue result ↔ All (λ word. length word ≤ most_units) (texts words.now) }
{
    for word in words {
        if word.as_str().len() > 2147483647 {
            return false;
        }
    }
    true
}

/// The words again, in memory of their own.
fn owned(alloc: Global, words: &[String]) -> Result<Vec<String>, AllocError>
    ensures { IfOk result (λ v. texts v.items ≡ texts words.now) }
{
    let mut all = Vec::new(alloc);
    for word in words {
        all.push(String::from_str(alloc, word.as_str())?)?;
    }
    Ok(all)
}

/// The command `run`, of which the words after its name are left.
fn read_run(alloc: Global, mut arguments: Arguments<'_>) -> Result<Command, WordsFault>
    ensures command { IfOk result (λ command. Fits (codes "run" ∷ texts arguments.entry.words.now) (command_of command)) }
    ensures usage { result ≡ Err WordsFault.Usage → (file : List ℕ) (steps : ℕ) (more : List (List ℕ)) → FitsRun (texts arguments.entry.words.now) file steps more → ⊥ }
{
    let Some(file) = arguments.next() else {
        return Err(WordsFault::Usage);
    };
    let Some(word) = arguments.next() else {
        return Err(WordsFault::Usage);
    };
    let Some(steps) = made!(number(alloc, word, 1_000_000_000)) else {
        return Err(WordsFault::Usage);
    };
    if arguments.words.len() > 2147483647 {
        return Err(WordsFault::Usage);
    }
    if !are_short(arguments.words) {
        return Err(WordsFault::Usage);
    }
    let file = made!(String::from_str(alloc, file));
    let words = made!(owned(alloc, arguments.words));
    Ok(Command::Run(file, steps, words))
}

/// The command `table`, of which the words after its name are left.
fn read_table(alloc: Global, mut arguments: Arguments<'_>) -> Result<Command, WordsFault>
    ensures command { IfOk result (λ command. Fits (codes "table" ∷ texts arguments.entry.words.now) (command_of command)) }
    ensures usage { result ≡ Err WordsFault.Usage → (file : List ℕ) → texts arguments.entry.words.now ≡ file ∷ [] → ⊥ }
{
    let Some(file) = arguments.last() else {
        return Err(WordsFault::Usage);
    };
    Ok(Command::Table(made!(String::from_str(alloc, file))))
}

/// The command `base`, of which the words after its name are left.
fn read_base(alloc: Global, mut arguments: Arguments<'_>) -> Result<Command, WordsFault>
    ensures command { IfOk result (λ command. Fits (codes "base" ∷ texts arguments.entry.words.now) (command_of command)) }
    ensures usage { result ≡ Err WordsFault.Usage → (file : List ℕ) → texts arguments.entry.words.now ≡ file ∷ [] → ⊥ }
{
    let Some(file) = arguments.last() else {
        return Err(WordsFault::Usage);
    };
    Ok(Command::Base(made!(String::from_str(alloc, file))))
}

/// The number of the row that the word names.
fn row_in(alloc: Global, word: &str) -> Result<Option<u32>, AllocError>
    ensures { IfOk result (λ read. MatchOption read ((n : ℕ) → n ≤ most_numbers → word.now ≡ row_word n → ⊥) (λ n. word.now ≡ row_word n)) }
{
    match word.strip_prefix('r') {
        None => Ok(None),
        Some(digits) => number(alloc, digits, 4_294_967_295),
    }
}

/// The number of the column that the word names.
fn column_in(alloc: Global, word: &str) -> Result<Option<u32>, AllocError>
    ensures { IfOk result (λ read. MatchOption read ((n : ℕ) → n ≤ most_numbers → word.now ≡ column_word n → ⊥) (λ n. word.now ≡ column_word n)) }
{
    match word.strip_prefix('c') {
        None => Ok(None),
        Some(digits) => number(alloc, digits, 4_294_967_295),
    }
}

/// The command `why`, of which the words after its name are left.
fn read_why(alloc: Global, mut arguments: Arguments<'_>) -> Result<Command, WordsFault>
    ensures command { IfOk result (λ command. Fits (codes "why" ∷ texts arguments.entry.words.now) (command_of command)) }
    ensures usage { result ≡ Err WordsFault.Usage → (file : List ℕ) (row column : ℕ) → FitsWhy (texts arguments.entry.words.now) file row column → ⊥ }
{
    let Some(file) = arguments.next() else {
        return Err(WordsFault::Usage);
    };
    let Some(word) = arguments.next() else {
        return Err(WordsFault::Usage);
    };
    let Some(row) = made!(row_in(alloc, word)) else {
        return Err(WordsFault::Usage);
    };
    let Some(word) = arguments.last() else {
        return Err(WordsFault::Usage);
    };
    let Some(column) = made!(column_in(alloc, word)) else {
        return Err(WordsFault::Usage);
    };
    Ok(Command::Why(made!(String::from_str(alloc, file)), row, column))
}

/// The command `sure`, of which the words after its name are left.
fn read_sure(alloc: Global, mut arguments: Arguments<'_>) -> Result<Command, WordsFault>
    ensures command { IfOk result (λ command. Fits (codes "sure" ∷ texts arguments.entry.words.now) (command_of command)) }
    ensures usage { result ≡ Err WordsFault.Usage → (file : List ℕ) → texts arguments.entry.words.now ≡ file ∷ [] → ⊥ }
{
    let Some(file) = arguments.last() else {
        return Err(WordsFault::Usage);
    };
    Ok(Command::Sure(made!(String::from_str(alloc, file))))
}

/// The command `same`, of which the words after its name are left.
fn read_same(alloc: Global, mut arguments: Arguments<'_>) -> Result<Command, WordsFault>
    ensures command { IfOk result (λ command. Fits (codes "same" ∷ texts arguments.entry.words.now) (command_of command)) }
    ensures usage { result ≡ Err WordsFault.Usage → (first second : List ℕ) → texts arguments.entry.words.now ≡ first ∷ second ∷ [] → ⊥ }
{
    let Some(first) = arguments.next() else {
        return Err(WordsFault::Usage);
    };
    let Some(second) = arguments.last() else {
        return Err(WordsFault::Usage);
    };
    let first = made!(String::from_str(alloc, first));
    let second = made!(String::from_str(alloc, second));
    Ok(Command::Same(first, second))
}

/// The number after `-c`.
fn read_count(alloc: Global, arguments: &mut Arguments<'_>) -> Result<u32, WordsFault>
    ensures bound { IfOk result (λ n. BoundAfter true (texts arguments.old.words.now) n (texts arguments.new.words.now)) }
    ensures usage { result ≡ Err WordsFault.Usage → (n : ℕ) (rest : List (List ℕ)) → BoundAfter true (texts arguments.old.words.now) n rest → ⊥ }
{
    let Some(word) = arguments.next() else {
        return Err(WordsFault::Usage);
    };
    match made!(number(alloc, word, 16_384)) {
        Some(0) => Err(WordsFault::Usage),
        Some(n) => Ok(n),
        None => Err(WordsFault::Usage),
    }
}

/// How many concepts the words allow.
fn read_bound(alloc: Global, arguments: &mut Arguments<'_>) -> Result<u32, WordsFault>
    ensures bound { IfOk result (λ n. TakesBound (texts arguments.old.words.now) n (texts arguments.new.words.now)) }
    ensures usage { result ≡ Err WordsFault.Usage → (n : ℕ) (rest : List (List ℕ)) → TakesBound (texts arguments.old.words.now) n rest → ⊥ }
{
    if arguments.flag("-c") {
        return read_count(alloc, arguments);
    }
    Ok(4096)
}

/// The command `lattice`, of which the words after its name are left.
fn read_lattice(alloc: Global, mut arguments: Arguments<'_>) -> Result<Command, WordsFault>
    ensures command { IfOk result (λ command. Fits (codes "lattice" ∷ texts arguments.entry.words.now) (command_of command)) }
    ensures usage { result ≡ Err WordsFault.Usage → (json : Bool) (bound : ℕ) (file : List ℕ) → FitsLattice (texts arguments.entry.words.now) json bound file → ⊥ }
{
    let json = arguments.flag("-j");
    let bound = match read_bound(alloc, &mut arguments) {
        Ok(bound) => bound,
        Err(fault) => return Err(fault),
    };
    let Some(file) = arguments.last() else {
        return Err(WordsFault::Usage);
    };
    Ok(Command::Lattice(json, bound, made!(String::from_str(alloc, file))))
}

/// The commands `edit` and `regen`, of which the words after the name are left; the second writes a program.
fn read_edit(
    alloc: Global,
    writes: bool,
    mut arguments: Arguments<'_>,
) -> Result<Command, WordsFault>
    ensures edit { writes ≡ false → IfOk result (λ command. Fits (codes "edit" ∷ texts arguments.entry.words.now) (command_of command)) }
    ensures regen { writes ≡ true → IfOk result (λ command. Fits (codes "regen" ∷ texts arguments.entry.words.now) (command_of command)) }
    ensures usage { result ≡ Err WordsFault.Usage → NoEdit (texts arguments.entry.words.now) }
{
    let bound = match read_bound(alloc, &mut arguments) {
        Ok(bound) => bound,
        Err(fault) => return Err(fault),
    };
    let Some(file) = arguments.next() else {
        return Err(WordsFault::Usage);
    };
    let Some(script) = arguments.last() else {
        return Err(WordsFault::Usage);
    };
    let file = made!(String::from_str(alloc, file));
    let script = made!(String::from_str(alloc, script));
    if writes {
        Ok(Command::Regen(bound, file, script))
    } else {
        Ok(Command::Edit(bound, file, script))
    }
}

/// The command `make`, of which the words after its name are left.
fn read_make(alloc: Global, mut arguments: Arguments<'_>) -> Result<Command, WordsFault>
    ensures command { IfOk result (λ command. Fits (codes "make" ∷ texts arguments.entry.words.now) (command_of command)) }
    ensures usage { result ≡ Err WordsFault.Usage → NoMake (texts arguments.entry.words.now) }
{
    let prints = arguments.flag("-p");
    let Some(word) = arguments.last() else {
        return Err(WordsFault::Usage);
    };
    match made!(number(alloc, word, 100)) {
        Some(0) => Err(WordsFault::Usage),
        Some(n) => Ok(Command::Make(prints, n)),
        None => Err(WordsFault::Usage),
    }
}

/// The command of this name, of which the words after the name are left.
fn read_named(alloc: Global, name: &str, arguments: Arguments<'_>) -> Result<Command, WordsFault>
    ensures command { IfOk result (λ command. Fits (name.now ∷ texts arguments.entry.words.now) (command_of command)) }
    ensures usage { result ≡ Err WordsFault.Usage → FitsNone (name.now ∷ texts arguments.entry.words.now) }
{
    match name {
        "run" => read_run(alloc, arguments),
        "table" => read_table(alloc, arguments),
        "lattice" => read_lattice(alloc, arguments),
        "base" => read_base(alloc, arguments),
        "why" => read_why(alloc, arguments),
        "sure" => read_sure(alloc, arguments),
        "same" => read_same(alloc, arguments),
        "edit" => read_edit(alloc, false, arguments),
        "regen" => read_edit(alloc, true, arguments),
        "make" => read_make(alloc, arguments),
        "--help" if arguments.is_done() => Ok(Command::Help),
        "--version" if arguments.is_done() => Ok(Command::Version),
        _ => Err(WordsFault::Usage),
    }
}

/// The command that the words after the program's name say. `Usage` comes exactly where they say
/// none, `Memory` where memory is short.
pub fn read_words(alloc: Global, words: &Vec<String>) -> Result<Command, WordsFault>
    ensures command { IfOk result (λ command. Fits (texts words.now.items) (command_of command)) }
    ensures usage { result ≡ Err WordsFault.Usage → FitsNone (texts words.now.items) }
{
    let mut arguments = Arguments {
        words: words.as_slice(),
    };
    match arguments.next() {
        Some(name) => read_named(alloc, name, arguments),
        None => Err(WordsFault::Usage),
    }
}
