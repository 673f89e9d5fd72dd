//! What `check` says of bundles that aren't typed: each kind of fault, and the byte where its place begins.
//!
//! Every text is written in two pieces, and the second begins with the place of the fault. So the byte that has to be
//! printed is the length of what stands before it, and nothing is counted.

use super::{NO_BUNDLE, PROOF, checking, outcome, refusal};
use std::alloc::Global;
use std::process::Abort;
use std::test::Fail;

/// What it shows, what stands before the place of the fault, what begins there, and the kind.
type Row<'a> = (&'a str, &'a str, &'a str, &'a str);

/// What is wrong with items by themselves, and with interfaces.
const ITEMS: [Row<'_>; 19] = [
    (
        "an item that is called like one of another kind",
        "class A { } unit B { } ",
        "interface A { boundary { } init ensures true writes { } }",
        "Twice",
    ),
    (
        "a field of two classes",
        "class A { f : int ; } ",
        "class B { f : rgn ; }",
        "Twice",
    ),
    (
        "two fields of one name",
        "",
        "class A { f : int ; f : int ; }",
        "Twice",
    ),
    (
        "a name that is declared twice, far behind another fault",
        "class A { f : B ; } unit U { global x : int ; } ",
        "unit V { global x : int ; global x : int ; }",
        "Twice",
    ),
    (
        "a global `result`",
        "",
        "unit U { global result : int ; }",
        "Twice",
    ),
    (
        "a field of a class that isn't there, behind one of a class that comes later",
        "class A { f : B ; } class B { } ",
        "class C { g : D ; }",
        "Unknown",
    ),
    (
        "a global whose type is no class",
        "unit A { } ",
        "unit U { global x : A ; }",
        "Unknown",
    ),
    (
        "a boundary's field",
        "",
        "interface I { global g : rgn ; boundary { g @ f } init ensures true writes { } }",
        "Unknown",
    ),
    (
        "what an init writes",
        "",
        "interface I { boundary { } init ensures true writes { x } }",
        "Unknown",
    ),
    (
        "the result of an init",
        "interface I { boundary { } init ensures ",
        "( result = 0 ) writes { } }",
        "Unknown",
    ),
    (
        "`old` in a boundary",
        "class C { f : int ; } ",
        "interface I { global g : rgn ; boundary { old ( g ) @ f } init ensures true writes { } }",
        "OldHere",
    ),
    (
        "a boundary's place that is no region",
        "class C { f : int ; } ",
        "interface I { global x : int ; boundary { x @ f } init ensures true writes { } }",
        "WrongType",
    ),
    (
        "a method that is declared again",
        "interface I { boundary { } init ensures true writes { } \
        method m ( ) : int requires true ensures true writes { } ; ",
        "method m ( ) : rgn requires true ensures true writes { } ; }",
        "Twice",
    ),
    (
        "a method's parameter that is declared again, behind a module's body for the method",
        "module M : I { invariant true ; init { } method m { } } \
        interface I { boundary { } init ensures true writes { } ",
        "method m ( n : int , n : int ) : int requires true ensures true writes { } ; }",
        "Twice",
    ),
    (
        "a method's parameter that is called like a global",
        "interface I { global x : int ; boundary { } init ensures true writes { } ",
        "method m ( x : int ) : int requires true ensures true writes { } ; }",
        "Twice",
    ),
    (
        "the class of a method's result",
        "interface I { boundary { } init ensures true writes { } ",
        "method m ( ) : C requires true ensures true writes { } ; }",
        "Unknown",
    ),
    (
        "`result` in a method's `requires`",
        "interface I { boundary { } init ensures true writes { } method m ( ) : int requires ",
        "( result = 0 ) ensures true writes { } ; }",
        "Unknown",
    ),
    (
        "modules whose interface isn't there, behind their pair",
        "pair Q : A ~ B { coupling true ; init bi { } method m bi { } } ",
        "module A : I { invariant true ; init { } } module B : I { invariant true ; init { } }",
        "Unknown",
    ),
    (
        "a call of a `main` that isn't there",
        "unit U { proc p ( ) : int requires true ensures true writes { } { ",
        "result := call main ( ) ; } }",
        "Unknown",
    ),
];

const UNIT: &str = "class C { f : int ; next : C ; } class D { } \
    unit U { global x : int ; global g : rgn ; global c : C ; global d : D ; ";

/// Procedures, up to their first command, which has a fault too, at a later place.
const PROCEDURES: [Row<'_>; 13] = [
    (
        "two parameters of one name",
        "",
        "proc p ( n : int , n : rgn ) : int requires true ensures true writes { } {",
        "Twice",
    ),
    (
        "a parameter that is called like a global",
        "",
        "proc p ( x : int ) : int requires true ensures true writes { } {",
        "Twice",
    ),
    (
        "a local that is called like a parameter",
        "",
        "proc p ( n : int ) : int requires true ensures true writes { } { var n : int ;",
        "Twice",
    ),
    (
        "a local `result`",
        "",
        "proc p ( ) : int requires true ensures true writes { } { var result : int ;",
        "Twice",
    ),
    (
        "a procedure that is declared again",
        "proc p ( ) : int requires true ensures true writes { } { } ",
        "proc p ( n : int ) : int requires true ensures true writes { } {",
        "Twice",
    ),
    (
        "a parameter's class",
        "",
        "proc p ( n : E ) : int requires true ensures true writes { } {",
        "Unknown",
    ),
    (
        "the class of the result",
        "",
        "proc p ( ) : E requires true ensures true writes { } {",
        "Unknown",
    ),
    (
        "a local's class",
        "",
        "proc p ( ) : int requires true ensures true writes { } { var e : E ;",
        "Unknown",
    ),
    (
        "a parameter among the globals that are written",
        "",
        "proc p ( n : int ) : int requires true ensures true writes { x , n } {",
        "Unknown",
    ),
    (
        "a local in a region that is written",
        "",
        "proc p ( ) : int requires true ensures true writes { { i } @ f } { var i : C ;",
        "Unknown",
    ),
    (
        "a field that is written",
        "",
        "proc p ( ) : int requires true ensures true writes { g @ h } {",
        "Unknown",
    ),
    (
        "`old` in a region that is written",
        "",
        "proc p ( ) : int requires true ensures true writes { old ( g ) @ f } {",
        "OldHere",
    ),
    (
        "a place that is no region, before a clause with a fault of an earlier kind",
        "",
        "proc p ( ) : int requires ( y = 0 ) ensures true writes { x @ f } {",
        "WrongType",
    ),
];

/// The clauses of a procedure that has a parameter n and a local i.
const CLAUSES: [Row<'_>; 18] = [
    (
        "a parameter's name, quantified",
        "requires ",
        "all n : C in g { true } ensures true",
        "Twice",
    ),
    (
        "a quantified name, quantified again",
        "requires ",
        "all z : C in g { not some z : C in g { true } } ensures true",
        "Twice",
    ),
    (
        "`result`, quantified where it is seen",
        "requires true ensures ",
        "all result : C in g { true }",
        "Twice",
    ),
    (
        "a local in a `requires`",
        "requires ",
        "( i = 0 ) ensures true",
        "Unknown",
    ),
    (
        "a local in an `ensures`",
        "requires true ensures ",
        "( i = 0 )",
        "Unknown",
    ),
    (
        "`result` in a `requires`",
        "requires ",
        "( result = n ) ensures true",
        "Unknown",
    ),
    (
        "a quantified name outside its formula",
        "requires true ensures ",
        "[ all z : C in g { true } and ( z = c ) ]",
        "Unknown",
    ),
    (
        "the class of a quantified name",
        "requires ",
        "some z : E in g { true } ensures true",
        "Unknown",
    ),
    (
        "a field that is read",
        "requires ",
        "( ( c . h ) = 0 ) ensures true",
        "Unknown",
    ),
    (
        "the class of a filter",
        "requires ",
        "( ( g of E ) = g ) ensures true",
        "Unknown",
    ),
    (
        "`old` in a `requires`",
        "requires ",
        "( old ( x ) = x ) ensures true",
        "OldHere",
    ),
    (
        "`old` of a wrong type",
        "requires ",
        "( old ( x ) = g ) ensures true",
        "OldHere",
    ),
    (
        "`old` inside another `old`",
        "requires true ensures ",
        "( result = old ( ( x + old ( n ) ) ) )",
        "OldHere",
    ),
    (
        "a `requires` that comes before a worse `ensures`",
        "requires ",
        "( x = g ) ensures ( y = 0 )",
        "WrongType",
    ),
    (
        "two classes",
        "requires ",
        "( c = d ) ensures true",
        "WrongType",
    ),
    (
        "the image of an int field",
        "requires true ensures ",
        "( ( g @ f ) sub g )",
        "WrongType",
    ),
    (
        "a field of another class",
        "requires ",
        "( ( d . f ) = 0 ) ensures true",
        "WrongType",
    ),
    (
        "a quantified name that ranges over an int",
        "requires ",
        "some z : C in x { true } ensures true",
        "WrongType",
    ),
];

const BODY: &str = "proc q ( m : int ) : int requires true ensures true writes { } { } \
    proc main ( ) : int requires true ensures true writes { } { } \
    proc p ( n : int , k : C ) : int requires true ensures true writes { } { var i : int ; ";

/// The commands of p. None of them can assign a quantified name, since formulas hold no commands.
const COMMANDS: [Row<'_>; 35] = [
    (
        "a quantified name in a loop's invariant, behind another fault",
        "y := 1 ; ",
        "while true inv all i : C in g { true } { } ; ",
        "Twice",
    ),
    (
        "a quantified name in a test",
        "",
        "if all n : C in g { true } { } else { } ; ",
        "Twice",
    ),
    ("a variable", "skip ; ", "y := 1 ; ", "Unknown"),
    (
        "a field, in a loop",
        "while ( i < n ) inv true { i := ( i + 1 ) ; ",
        "c . h := 1 ; } ; ",
        "Unknown",
    ),
    ("a class", "", "c := new E ; ", "Unknown"),
    ("a procedure", "", "x := call r ( ) ; ", "Unknown"),
    (
        "a name that was quantified",
        "while true inv all z : C in g { true } { ",
        "z := null ; } ; ",
        "Unknown",
    ),
    (
        "a name and a wrong type",
        "",
        "x := ( y + g ) ; ",
        "Unknown",
    ),
    (
        "a call of `main` with an argument",
        "",
        "x := call main ( 1 ) ; ",
        "NotVisible",
    ),
    ("no argument", "", "x := call q ( ) ; ", "WrongArity"),
    (
        "two arguments, and a parameter that is assigned",
        "",
        "n := call q ( 1 , g ) ; ",
        "WrongArity",
    ),
    (
        "a parameter, assigned",
        "if ( i = 0 ) { } else { ",
        "n := 1 ; } ; ",
        "Target",
    ),
    (
        "a parameter, assigned what isn't code and has a wrong type",
        "",
        "n := alloc ; ",
        "Target",
    ),
    (
        "a parameter, assigned by a load",
        "",
        "n := c . f ; ",
        "Target",
    ),
    (
        "a parameter, assigned a new object",
        "",
        "k := new C ; ",
        "Target",
    ),
    (
        "`old` in an expression, which isn't code either",
        "",
        "x := old ( x ) ; ",
        "OldHere",
    ),
    (
        "`old` in a test",
        "",
        "while ( x = old ( x ) ) inv true { } ; ",
        "OldHere",
    ),
    (
        "`old` inside another `old`, in a loop's invariant",
        "",
        "while true inv ( x = old ( old ( x ) ) ) { } ; ",
        "OldHere",
    ),
    ("a field read", "", "x := ( c . f ) ; ", "NotCode"),
    ("an image", "", "g := ( g @ next ) ; ", "NotCode"),
    ("a filter", "", "g := ( g of C ) ; ", "NotCode"),
    (
        "`alloc`, which has a wrong type too",
        "",
        "x := alloc ; ",
        "NotCode",
    ),
    (
        "a field read, in an argument",
        "",
        "x := call q ( ( c . f ) ) ; ",
        "NotCode",
    ),
    (
        "a quantifier in a test",
        "",
        "if some z : C in g { ( z = c ) } { } else { } ; ",
        "NotCode",
    ),
    ("null for an int", "", "x := null ; ", "WrongType"),
    (
        "a wrong type, before a name",
        "",
        "x := g ; y := 1 ; ",
        "WrongType",
    ),
    (
        "a test of a wrong type, round a name",
        "",
        "if ( c = d ) { y := 1 ; } else { } ; ",
        "WrongType",
    ),
    (
        "an object of another class",
        "",
        "c := new D ; ",
        "WrongType",
    ),
    (
        "a load into another class, in an `if` in a loop",
        "while true inv true { if true { ",
        "d := c . next ; } else { } ; } ; ",
        "WrongType",
    ),
    (
        "a load through another class",
        "",
        "x := d . f ; ",
        "WrongType",
    ),
    (
        "a store through another class",
        "",
        "d . f := 1 ; ",
        "WrongType",
    ),
    (
        "a store of another class",
        "",
        "c . next := d ; ",
        "WrongType",
    ),
    ("an argument", "", "x := call q ( g ) ; ", "WrongType"),
    ("a result", "", "g := call q ( 1 ) ; ", "WrongType"),
    (
        "the image of an int field, in a loop's invariant",
        "",
        "while true inv ( ( g @ f ) = empty ) { } ; ",
        "WrongType",
    ),
];

const INTERFACE: &str =
    "interface I { global g : rgn ; global x : int ; boundary { } init ensures true writes { } \
    method a ( n : int ) : int requires true ensures true writes { } ; \
    method b ( ) : int requires true ensures true writes { } ; } ";

/// Modules of I.
const MODULES: [Row<'_>; 19] = [
    (
        "a global that is called like the interface's",
        "",
        "module M : I { global x : int ; invariant true ; init { } method a { } method b { } }",
        "Twice",
    ),
    (
        "a local of an init that is called like a global",
        "module M : I { invariant true ; ",
        "init { var x : int ; } method a { } method b { } }",
        "Twice",
    ),
    (
        "a method's parameter that is called like a module's global",
        "module M : I { global n : int ; invariant true ; init { } ",
        "method a { } method b { } }",
        "Twice",
    ),
    (
        "an interface that isn't there",
        "",
        "module M : J { invariant true ; init { } method a { } }",
        "Unknown",
    ),
    (
        "methods in another order",
        "",
        "module M : I { invariant true ; init { } method b { } method a { } }",
        "Missing",
    ),
    (
        "a method that is left out, before a name",
        "",
        "module M : I { invariant ( y = 0 ) ; init { } method a { } }",
        "Missing",
    ),
    (
        "one method too many",
        "",
        "module M : I { invariant true ; init { } method a { } method b { } method c { } }",
        "Missing",
    ),
    (
        "a method that is listed twice",
        "",
        "module M : I { invariant true ; init { } method a { } method a { } method b { } }",
        "Missing",
    ),
    (
        "`result` in an invariant",
        "module M : I { invariant ",
        "( result = 0 ) ; init { } method a { } method b { } }",
        "Unknown",
    ),
    (
        "`old` in an invariant",
        "module M : I { invariant ",
        "( old ( x ) = x ) ; init { } method a { } method b { } }",
        "OldHere",
    ),
    (
        "an invariant of a wrong type",
        "module M : I { invariant ",
        "( g <= x ) ; init { } method a { } method b { } }",
        "WrongType",
    ),
    (
        "the result of an init",
        "module M : I { invariant true ; init { ",
        "result := 0 ; } method a { } method b { } }",
        "Unknown",
    ),
    (
        "the class of a method's local",
        "module M : I { invariant true ; init { } method a { } ",
        "method b { var e : E ; } }",
        "Unknown",
    ),
    (
        "a call of a method",
        "module M : I { invariant true ; init { } method a { ",
        "x := call b ( ) ; } method b { } }",
        "NotVisible",
    ),
    (
        "a call of a method in an init, without its argument",
        "module M : I { invariant true ; init { ",
        "x := call a ( ) ; } method a { } method b { } }",
        "NotVisible",
    ),
    (
        "a call of another name",
        "module M : I { invariant true ; init { } method a { ",
        "x := call c ( ) ; } method b { } }",
        "Unknown",
    ),
    (
        "a call of `main`",
        "module M : I { invariant true ; init { ",
        "x := call main ( ) ; } method a { } method b { } }",
        "Unknown",
    ),
    (
        "a method's parameter, assigned",
        "module M : I { invariant true ; init { } method a { if ( n = 0 ) { ",
        "n := 1 ; } else { } ; } method b { } }",
        "Target",
    ),
    (
        "a method's result of a wrong type",
        "module M : I { invariant true ; init { } method a { result := n ; } method b { ",
        "result := g ; } }",
        "WrongType",
    ),
];

const MODULE: &str = "interface I { global x : int ; boundary { } init ensures true writes { } \
    method m ( n : int ) : int requires true ensures true writes { } ; } \
    module M : I { global own : int ; invariant true ; init { } method m { } } ";

/// Clients of I.
const CLIENTS: [Row<'_>; 10] = [
    (
        "a global that is called like the interface's",
        "",
        "client K : I { global x : int ; proc main ( ) : int requires true ensures true writes { } { } }",
        "Twice",
    ),
    (
        "a procedure that is called like a method",
        "client K : I { proc main ( ) : int requires true ensures true writes { } { } ",
        "proc m ( ) : int requires true ensures true writes { } { } }",
        "Twice",
    ),
    (
        "an interface that isn't there",
        "",
        "client K : J { }",
        "Unknown",
    ),
    (
        "no `main`",
        "",
        "client K : I { proc p ( ) : int requires true ensures true writes { } { } }",
        "NoMain",
    ),
    (
        "a `main` with a parameter",
        "client K : I { ",
        "proc main ( n : int ) : int requires true ensures true writes { } { } }",
        "NoMain",
    ),
    (
        "a module's global among those that are written",
        "client K : I { ",
        "proc main ( ) : int requires true ensures true writes { own } { } }",
        "Unknown",
    ),
    (
        "a module's global in code",
        "client K : I { proc main ( ) : int requires true ensures true writes { } { ",
        "own := 1 ; } }",
        "Unknown",
    ),
    (
        "a call of `main`",
        "client K : I { proc main ( ) : int requires true ensures true writes { } { ",
        "result := call main ( ) ; } }",
        "NotVisible",
    ),
    (
        "a call of a method without its argument",
        "client K : I { proc main ( ) : int requires true ensures true writes { } { ",
        "result := call m ( ) ; } }",
        "WrongArity",
    ),
    (
        "an argument of a method",
        "client K : I { proc main ( ) : int requires true ensures true writes { } { ",
        "result := call m ( null ) ; } }",
        "WrongType",
    ),
];

const UNITS: &str = "class C { f : int ; } class D { } \
    unit U { global x : int ; global c : C ; global g : rgn ; \
    proc p ( n : int ) : int requires true ensures true writes { } { var i : int ; } \
    proc r ( ) : int requires true ensures true writes { } { } } \
    unit V { global y : int ; global e : C ; global d : D ; global h : rgn ; \
    proc p ( n : int ) : int requires true ensures true writes { } { var j : int ; } \
    proc r ( ) : int requires true ensures true writes { } { } } \
    judge K : U . r ~ V . r requires true ensures true bi { } \
    judge L : U . p ~ V . p requires true ensures true bi { } ";

/// Judgements about procedures of U and V.
const JUDGEMENTS: [Row<'_>; 12] = [
    (
        "a name on the left that is quantified on the left",
        "judge J : U . p ~ V . p requires ",
        "all left c : C in g { true } ensures true bi { }",
        "Twice",
    ),
    (
        "a procedure that isn't there",
        "",
        "judge J : U . q ~ V . p requires true ensures true bi { }",
        "Unknown",
    ),
    (
        "a unit that isn't there",
        "",
        "judge J : U . p ~ W . p requires ( x =:= y ) ensures true bi { }",
        "Unknown",
    ),
    (
        "a name on the right that is used on the left",
        "judge J : U . p ~ V . p requires ",
        "( y =:= y ) ensures true bi { }",
        "Unknown",
    ),
    (
        "a name on the left that is used on both sides",
        "judge J : U . p ~ V . p requires ",
        "both ( x = 0 ) ensures true bi { }",
        "Unknown",
    ),
    (
        "a region that both sides need",
        "judge J : U . p ~ V . p requires ",
        "agree g @ f ensures true bi { }",
        "Unknown",
    ),
    (
        "locals in a `requires`",
        "judge J : U . p ~ V . p requires ",
        "( i =:= j ) ensures true bi { }",
        "Unknown",
    ),
    (
        "a local in an `ensures`",
        "judge J : U . p ~ V . p requires true ensures ",
        "( i =:= y ) bi { }",
        "Unknown",
    ),
    (
        "`old` in a `requires`",
        "judge J : U . p ~ V . p requires ",
        "( old ( x ) =:= y ) ensures true bi { }",
        "OldHere",
    ),
    (
        "`old` inside another `old`",
        "judge J : U . p ~ V . p requires true ensures ",
        "right ( y = old ( old ( y ) ) ) bi { }",
        "OldHere",
    ),
    (
        "two classes",
        "judge J : U . p ~ V . p requires ",
        "( c =:= d ) ensures true bi { }",
        "WrongType",
    ),
    (
        "an int and a region",
        "judge J : U . p ~ V . p requires ( x =:= y ) ensures ",
        "( result =:= h ) bi { }",
        "WrongType",
    ),
];

/// The alignments of a judgement about both p.
const ALIGNMENTS: [Row<'_>; 27] = [
    (
        "a name that is quantified in a step",
        "weave { at 0 note ( z =:= y ) ; ",
        "at 0 note all left i : C in g { true } ; }",
        "Twice",
    ),
    (
        "a name on the right that is used in a left block",
        "bi { split { ",
        "y := 1 ; } { } ; }",
        "Unknown",
    ),
    (
        "a name on the left that is used in a right block",
        "bi { split { i := 0 ; } { j := 0 ; ",
        "x := 1 ; } ; }",
        "Unknown",
    ),
    (
        "a parameter, assigned in an `if` of a right block",
        "bi { split { } { if true { ",
        "n := 1 ; } else { } ; } ; }",
        "Target",
    ),
    (
        "a joint command that only the left side knows",
        "bi { sync ",
        "i := 0 ; }",
        "Unknown",
    ),
    (
        "a joint command of a wrong type",
        "bi { sync skip ; sync ",
        "result := null ; }",
        "WrongType",
    ),
    (
        "a judgement about other procedures",
        "bi { ",
        "sync result := call r ( ) using L ; }",
        "Unknown",
    ),
    (
        "a judgement about other procedures, for a call without its argument",
        "bi { ",
        "sync result := call p ( ) using K ; }",
        "Unknown",
    ),
    (
        "a judgement that isn't there",
        "bi { ",
        "sync result := call r ( ) using M ; }",
        "Unknown",
    ),
    (
        "a joint call without its argument",
        "bi { sync ",
        "result := call p ( ) using L ; }",
        "WrongArity",
    ),
    (
        "a right test of a wrong type, round a name",
        "bi { ",
        "if ( x = 0 ) | ( y = h ) { note ( z =:= y ) ; } else { } ; }",
        "WrongType",
    ),
    (
        "a left test with a quantifier",
        "bi { ",
        "if some z : C in g { true } | ( y = 0 ) { } else { } ; }",
        "NotCode",
    ),
    (
        "a name in a note, in an `if`",
        "bi { if true | true { } else { ",
        "note ( z =:= y ) ; } ; }",
        "Unknown",
    ),
    (
        "a left invariant that names a local of the right side",
        "bi { ",
        "while true | true inv ( j = 0 ) | true rel true align false | false { } ; }",
        "Unknown",
    ),
    (
        "`old` inside another `old`, in a relational invariant",
        "bi { ",
        "while true | true inv true | true rel ( old ( old ( x ) ) =:= y ) align false | false { } ; }",
        "OldHere",
    ),
    (
        "a loop's test that isn't code",
        "bi { ",
        "while true | ( alloc = h ) inv true | true rel true align false | false { } ; }",
        "NotCode",
    ),
    (
        "a guard of a wrong type",
        "bi { ",
        "while true | true inv true | true rel true align false | ( x =:= h ) { } ; }",
        "WrongType",
    ),
    (
        "a link of ints, in a loop",
        "bi { while true | true inv true | true rel true align false | false { ",
        "link x | y ; } ; }",
        "WrongType",
    ),
    (
        "a link of two classes",
        "bi { ",
        "link c | d ; }",
        "WrongType",
    ),
    ("a link of regions", "bi { ", "link g | h ; }", "WrongType"),
    (
        "a link of what only the left side knows",
        "bi { link c | e ; ",
        "link c | c ; }",
        "Unknown",
    ),
    (
        "`old` inside another `old`, in a note",
        "bi { ",
        "note ( x =:= old ( old ( y ) ) ) ; }",
        "OldHere",
    ),
    (
        "a step that calls by no judgement",
        "weave { at 0 seq 0 0 ; ",
        "at 0 call M ; }",
        "Unknown",
    ),
    (
        "a relational invariant of a step",
        "weave { ",
        "at 0 while ( z =:= y ) | false | false ; }",
        "Unknown",
    ),
    (
        "a guard of a step",
        "weave { at 0 drop ; ",
        "at 0 while true | ( x =:= h ) | false ; }",
        "WrongType",
    ),
    (
        "a link of parameters that are ints, in a step",
        "weave { at 0 sync ; at 0 link c | e ; ",
        "at 0 1 0 link n | n ; }",
        "WrongType",
    ),
    (
        "`old` inside another `old`, in a step",
        "weave { ",
        "at 0 note left ( x = old ( old ( x ) ) ) ; }",
        "OldHere",
    ),
];

const TWO_MODULES: &str = "class C { } \
    interface I { global x : int ; boundary { } init ensures true writes { } \
    method m ( n : int ) : int requires true ensures true writes { } ; } \
    interface J { boundary { } init ensures true writes { } \
    method m ( n : int ) : int requires true ensures true writes { } ; } \
    module A : I { global a : int ; invariant true ; init { var i : int ; } method m { } } \
    module B : I { global b : rgn ; invariant true ; init { } method m { var i : int ; } } \
    module D : J { invariant true ; init { } method m { } } \
    unit U { proc m ( n : int ) : int requires true ensures true writes { } { } } \
    judge K : U . m ~ U . m requires true ensures true bi { } ";

/// Pairs of A, B and D.
const PAIRS: [Row<'_>; 16] = [
    (
        "a module that isn't there",
        "",
        "pair Q : A ~ U { coupling true ; init bi { } method m bi { } }",
        "Unknown",
    ),
    (
        "modules of two interfaces",
        "",
        "pair Q : A ~ D { coupling true ; init bi { } method m bi { } }",
        "Missing",
    ),
    (
        "a method that is left out, before a name",
        "",
        "pair Q : A ~ B { coupling ( y =:= x ) ; init bi { } }",
        "Missing",
    ),
    (
        "a method that is listed twice",
        "",
        "pair Q : A ~ B { coupling true ; init bi { } method m bi { } method m bi { } }",
        "Missing",
    ),
    (
        "an interface's global, quantified on the right",
        "pair Q : A ~ B { coupling ",
        "all right x : C in b { true } ; init bi { } method m bi { } }",
        "Twice",
    ),
    (
        "a global of the right module that is used on the left",
        "pair Q : A ~ B { coupling ",
        "( b =:= b ) ; init bi { } method m bi { } }",
        "Unknown",
    ),
    (
        "`result` in a coupling",
        "pair Q : A ~ B { coupling ",
        "( result =:= result ) ; init bi { } method m bi { } }",
        "Unknown",
    ),
    (
        "`old` in a coupling",
        "pair Q : A ~ B { coupling ",
        "( x =:= old ( x ) ) ; init bi { } method m bi { } }",
        "OldHere",
    ),
    (
        "an int and a region",
        "pair Q : A ~ B { coupling ",
        "( a =:= b ) ; init bi { } method m bi { } }",
        "WrongType",
    ),
    (
        "a local of one init in both",
        "pair Q : A ~ B { coupling ( x =:= x ) ; init bi { sync ",
        "i := 0 ; } method m bi { } }",
        "Unknown",
    ),
    (
        "the result of an init",
        "pair Q : A ~ B { coupling true ; init bi { split { i := 0 ; ",
        "result := 0 ; } { } ; } method m bi { } }",
        "Unknown",
    ),
    (
        "a call of a method",
        "pair Q : A ~ B { coupling true ; init bi { split { } { ",
        "x := call m ( 1 ) ; } ; } method m bi { } }",
        "NotVisible",
    ),
    (
        "a call of another name",
        "pair Q : A ~ B { coupling true ; init bi { split { ",
        "x := call k ( 1 ) ; } { } ; } method m bi { } }",
        "Unknown",
    ),
    (
        "a judgement for a call of a method",
        "pair Q : A ~ B { coupling true ; init bi { } method m bi { ",
        "sync result := call m ( 1 ) using K ; } }",
        "Unknown",
    ),
    (
        "a parameter of both methods, assigned",
        "pair Q : A ~ B { coupling true ; init weave { } method m bi { sync result := n ; sync ",
        "n := 0 ; } }",
        "Target",
    ),
    (
        "a link of parameters that are ints, in a step",
        "pair Q : A ~ B { coupling true ; init weave { } method m weave { at 0 if ; ",
        "at 0 link n | n ; } }",
        "WrongType",
    ),
];

/// Each row, between the front and the back, is refused for its kind at its place.
fn are_told(
    rt: &impl Abort,
    alloc: Global,
    front: &str,
    back: &str,
    rows: &[Row<'_>],
) -> Result<(), Fail> {
    for (case, before, rest, kind) in rows {
        let bundle = format!(in alloc; "{front}{before}{rest}{back}")?;
        let why = format!(in alloc; "Typing {kind}")?;
        let at = front.len().saturating_add(before.len());
        let expected = refusal(alloc, why.as_str(), at)?;
        let call = checking(bundle.as_bytes(), PROOF.as_bytes());
        assert_eq!(rt; outcome(alloc, call)?.as_str(), expected.as_str(), "{case}");
    }
    Ok(())
}

#[test]
fn each_kind_of_fault_is_told_at_its_place(rt: HostRuntime) -> Result<(), Fail> {
    let alloc = rt.alloc();
    let procedure = format!(in alloc; "{UNIT}proc p ( n : int ) : int ")?;
    let body = format!(in alloc; "{UNIT}{BODY}")?;
    let judgement = "judge J : U . p ~ V . p requires true ensures true ";
    let judgement = format!(in alloc; "{UNITS}{judgement}")?;
    let no_locals = " writes { } { var i : int ; } }";
    are_told(&rt, alloc, "", "", &ITEMS)?;
    are_told(&rt, alloc, UNIT, " y := g ; } }", &PROCEDURES)?;
    are_told(&rt, alloc, procedure.as_str(), no_locals, &CLAUSES)?;
    are_told(&rt, alloc, body.as_str(), "} }", &COMMANDS)?;
    are_told(&rt, alloc, INTERFACE, "", &MODULES)?;
    are_told(&rt, alloc, MODULE, "", &CLIENTS)?;
    are_told(&rt, alloc, UNITS, "", &JUDGEMENTS)?;
    are_told(&rt, alloc, judgement.as_str(), "", &ALIGNMENTS)?;
    are_told(&rt, alloc, TWO_MODULES, "", &PAIRS)
}

/// What it shows, and the text.
const TYPED: [(&str, &str); 9] = [
    (
        "items that are used before they are declared",
        "judge J : U . p ~ U . p requires true ensures true \
        bi { sync result := call q ( 1 ) using K ; } \
        judge K : U . q ~ U . q requires true ensures true weave { at 0 call J ; } \
        pair Q : A ~ A { coupling ( x =:= x ) ; init weave { } method m bi { sync n := null ; } } \
        client N : I { proc main ( ) : int requires true ensures true writes { x } \
        { result := call m ( x ) ; } } \
        module A : I { invariant true ; init { } method m { var n : E ; } } \
        interface I { global x : D ; boundary { { x } @ f } init ensures true writes { x } \
        method m ( y : D ) : int requires true ensures true writes { } ; } \
        unit U { proc p ( ) : int requires true ensures true writes { } \
        { result := call q ( result ) ; } \
        proc q ( n : int ) : int requires true ensures true writes { } { } } \
        class D { f : E ; } class E { }",
    ),
    (
        "null, which has every class",
        "class C { f : int ; next : C ; } unit U { global g : rgn ; global c : C ; \
        proc p ( n : C ) : int requires [ ( null = null ) and ( null in g ) ] \
        ensures [ ( ( null . f ) = 0 ) and ( { null } sub g ) ] writes { { null } @ next } \
        { c := null ; c . next := null ; result := call p ( null ) ; if ( null = c ) { } else { } ; } } \
        judge J : U . p ~ U . p requires ( null =:= null ) ensures ( c =:= null ) bi { }",
    ),
    (
        "`old` where a body has an entry",
        "interface I { global x : int ; boundary { } init ensures ( x = old ( x ) ) writes { } } \
        unit U { global x : int ; proc p ( n : int ) : int requires true ensures ( old ( result ) = \
        old ( ( x + n ) ) ) writes { } { while true inv ( n <= old ( x ) ) { } ; } } \
        judge J : U . p ~ U . p requires true ensures ( old ( x ) =:= result ) bi { \
        while true | true inv ( x = old ( x ) ) | ( x = old ( x ) ) rel ( old ( x ) =:= x ) \
        align left ( x = old ( x ) ) | ( x =:= old ( x ) ) { note ( old ( x ) =:= x ) ; } ; } \
        judge K : U . p ~ U . p requires true ensures true weave { at 0 note ( old ( x ) =:= x ) ; \
        at 0 while ( old ( x ) =:= x ) | ( old ( x ) =:= x ) | ( old ( x ) =:= x ) ; }",
    ),
    (
        "names that are quantified where they aren't seen",
        "class C { } unit U { global g : rgn ; proc p ( ) : int \
        requires [ all result : C in g { true } and some i : C in g { true } ] \
        ensures [ all z : C in g { true } or some z : C in g { ( z = null ) } ] writes { } \
        { var i : int ; } proc q ( ) : int requires true ensures true writes { } { } } \
        judge J : U . p ~ U . q requires all left z : C in g { some right z : C in g { ( z =:= z ) } } \
        ensures all left i : C in g { true } bi { note all right i : C in g { true } ; }",
    ),
    (
        "stores and loads through parameters, and a place that one names",
        "class C { f : int ; } unit U { proc p ( c : C ) : int requires true ensures true \
        writes { { c } @ f } { c . f := 1 ; result := c . f ; } }",
    ),
    (
        "a client that names an interface's global, and calls a procedure and a method",
        "interface I { global x : int ; boundary { } init ensures true writes { } \
        method m ( n : int ) : int requires ( n = x ) ensures true writes { x } ; } \
        client K : I { global y : int ; proc main ( ) : int requires ( x = y ) ensures true writes { x , y } \
        { x := call m ( y ) ; y := call p ( x ) ; } \
        proc p ( n : int ) : int requires true ensures true writes { } { } }",
    ),
    (
        "names that are declared in two items",
        "interface I { global x : int ; boundary { } init ensures true writes { } } \
        interface J { global x : int ; boundary { } init ensures true writes { } } \
        module M : I { global f : int ; invariant ( f = x ) ; init { var y : int ; } } \
        client K : I { global f : int ; proc main ( ) : int requires true ensures true writes { } \
        { var y : int ; } proc f ( y : int ) : int requires true ensures true writes { } { } } \
        class f { f : f ; }",
    ),
    (
        "a unit's `main`, with a parameter",
        "unit U { proc main ( main : int ) : int requires true ensures true writes { } { } }",
    ),
    (
        "links of references of one class",
        "class C { } unit U { proc p ( c : C ) : C requires true ensures ( result = c ) writes { } { } } \
        judge J : U . p ~ U . p requires true ensures true bi { link c | result ; } \
        judge K : U . p ~ U . p requires true ensures true weave { at 0 link result | c ; }",
    ),
];

/// A bundle that is typed goes on to what can't be judged yet.
#[test]
fn a_typed_bundle_has_no_fault(rt: HostRuntime) -> Result<(), Fail> {
    for (case, bundle) in TYPED {
        let call = checking(bundle.as_bytes(), PROOF.as_bytes());
        assert_eq!(rt; outcome(rt.alloc(), call)?.as_str(), NO_BUNDLE, "{case}");
    }
    Ok(())
}
