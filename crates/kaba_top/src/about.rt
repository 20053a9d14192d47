//! What the program says of itself.
#![tactic(auto)]

ghost use Rattle.std.specs.Prelude.{[], IfOk};
ghost use Rattle.kaba_top.specs.Words.{GivesReply};
ghost use Rattle.kaba_top.specs.About.{help_text, version_text};

use crate::Tried;
use crate::reply::Reply;
use std::alloc::Global;

/// The reply of `--help`: each command, the statuses, and where the documents are.
pub fn help_reply(alloc: Global) -> Tried<Reply>
    ensures gives { IfOk result (λ reply. GivesReply 0 help_text [] reply.status reply.out.items reply.err.items) }
{
    let out = Vec::from_slice(
        alloc,
        b"kaba COMMAND: runs or analyses the Java program of a file\n\
        \n\
        \x20 run FILE STEPS WORD..      runs the program on the words, for at most STEPS steps\n\
        \x20 table FILE                 prints its variables and creations, and the members that each needs\n\
        \x20 lattice [-j] [-c N] FILE   prints the concept lattice of that table, as JSON with -j, of at most N concepts\n\
        \x20 base FILE                  prints the least base of implications of that table: which members always come together\n\
        \x20 why FILE ROW COLUMN        prints why the row has the column, step by step\n\
        \x20 sure FILE                  prints what is sure of every run: casts that pass, calls with one body, members never reached\n\
        \x20 same FILE FILE             tells whether the programs of two files are one, but for layout and order\n\
        \x20 edit [-c N] FILE SCRIPT    prints the class hierarchy after the edits of a script, and a line for each refused one\n\
        \x20 regen [-c N] FILE SCRIPT   prints the program that is written of that hierarchy, its classes brought into a tree\n\
        \x20 make [-p] NUMBER           does the whole job on a sample program of its own, or prints it with -p\n\
        \x20 --help                     prints this text\n\
        \x20 --version                  prints the version\n\
        \n\
        status: 0 done, 1 programs differ, 4 edits refused, 5 no tree, 10 fault of the run, 11 run not at its end,\n\
        \x20 64 usage, 65 text refused, 66 cannot read, 67 too large, 68 too many concepts, 69 bad script, 70 no memory,\n\
        \x20 71 no entry, 72 no words, 74 cannot write\n\
        documents: README.md and docs/ of the repository; docs/COMMANDS.md says each word, line and status\n",
    )?;
    Ok(Reply {
        status: 0,
        out,
        err: Vec::new(alloc),
    })
}

/// The reply of `--version`.
pub fn version_reply(alloc: Global) -> Tried<Reply>
    ensures gives { IfOk result (λ reply. GivesReply 0 version_text [] reply.status reply.out.items reply.err.items) }
{
    Ok(Reply {
        status: 0,
        out: Vec::from_slice(alloc, b"kaba 0.1\n")?,
        err: Vec::new(alloc),
    })
}
