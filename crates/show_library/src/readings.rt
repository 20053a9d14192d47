//! What the parser answers of texts with constructors: the token that cannot stand where it does, if one cannot; and
//! which programs with constructors are typed.

use crate::hierarchy::typed;
use java_lex::lex;
use java_parse::{ParseFault, parse};
use std::alloc::{AllocError, Global};

/// Bodies of a class `A` with constructors, whole and cut off or wrong somewhere.
const BODIES: [&str; 27] = [
    "A() { } }",
    "A(int x, final char[] y) { super(); f = x; } void A() { super.h(); } }",
    "static A() { super(g(), (char) 1); } public A() { return; } B() { } }",
    "A() { super.h(); super(A) = 1; } }",
    "A",
    "A ; }",
    "A(",
    "A(int) { } }",
    "A() ; }",
    "A() int x; }",
    "A() {",
    "A() { super",
    "A() { super; } }",
    "A() { super(",
    "A() { super(1 } }",
    "A() { super() } }",
    "A() { super() . h(); } }",
    "A() { super(); super(); } }",
    "A() { int x = 1; super(x); } }",
    "A() { { super(); } } }",
    "A() { this(); } }",
    "A() { } ; }",
    "void A() { super(); } }",
    "void ( ) { } }",
    "int () { } }",
    "A[] () { } }",
    "final A[] a; private A a() { } A",
];

/// Bodies of a class `A` with constructors, some of which name or type nothing right.
const CLASSES: [&str; 11] = [
    "A() { } }",
    "int f; A(int x, final char[] y) { super(); f = x; } }",
    "static A() { } }",
    "A() { } A(int x) { } }",
    "B() { } }",
    "int f; A(int x) { super(f); } }",
    "A(int x) { } } class B extends A { }",
    "A() { } } class B extends A { } class C extends B { C() { super(); } }",
    "A(char x) { } static A a() { return new A('a'); } }",
    "A(char x) { } static A a() { return new A(1); } }",
    "void A() { } A() { A(); } }",
];

/// What a text is read as.
fn add_reading(alloc: Global, text: &mut String, head: &str, body: &str) -> Result<(), AllocError> {
    let source = format!(in alloc; "{head}{body}")?;
    let bytes = Vec::from_slice(alloc, source.as_bytes())?;
    if bytes.len() >= 4_294_967_295 {
        return text.push_str("too long\n");
    }
    let Ok(tokens) = lex(alloc, &bytes) else {
        return text.push_str("no tokens\n");
    };
    if tokens.len() >= 4_294_967_295 {
        return text.push_str("too long\n");
    }
    write!(text, "{source}: ")?;
    match parse(alloc, &tokens) {
        Ok(_) => text.push_str("a program\n"),
        Err(ParseFault::NotAProgram(k)) => write!(text, "token {k} of {}\n", tokens.len()),
        Err(ParseFault::TooDeep(k)) => write!(text, "too deep at {k}\n"),
        Err(ParseFault::Memory) => Err(AllocError),
    }
}

/// Whether the program of a class `A` beside one with a main is typed.
fn add_typed(alloc: Global, text: &mut String, body: &str) -> Result<(), AllocError> {
    let main = "class M { static void main(String[] a) { } } ";
    let head = "class A { ";
    let source = format!(in alloc; "{main}{head}{body}")?;
    let bytes = Vec::from_slice(alloc, source.as_bytes())?;
    if bytes.len() > 1_048_576 {
        return text.push_str("too long\n");
    }
    let said = match typed(alloc, &bytes)? {
        Some(_) => "typed",
        None => "refused",
    };
    write!(text, "{head}{body}: {said}\n")
}

/// What each text is read as.
pub fn add_readings(alloc: Global, text: &mut String) -> Result<(), AllocError> {
    for body in BODIES {
        add_reading(alloc, text, "class A { ", body)?;
    }
    add_reading(alloc, text, "interface I { ", "I() ; }")?;
    add_reading(alloc, text, "interface I { ", "I I() ; }")?;
    for body in CLASSES {
        add_typed(alloc, text, body)?;
    }
    Ok(())
}
