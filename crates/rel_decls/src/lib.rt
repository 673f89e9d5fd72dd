//! Reads a text into the bundle that it stands for.
#![tactic(auto)]

ghost use Rattle.std.specs.Prelude.{◌≡◌, ◌≢◌, ℕ, ◌-◌, ◌^◌, ◌<◌, List as Listed, length, IfOk, IfErr};
ghost use Rattle.std.specs.Str.{IsUtf8};
ghost use Rattle.rel_lang.specs.Syntax as syntax;
ghost use Rattle.rel_lang.specs.Refusal.{Fits, place_behind};
ghost use Rattle.rel_lang.specs.Text.{StandsFor};
ghost use Rattle.rel_lang.specs.View.{bundle_of};
ghost use Rattle.rel_lexer.specs.Tokens.{tokens_of, IsFirstFault};
ghost use Rattle.rel_decls.specs.Faults.{HasFault, StandsForNone, IsTold, placed_fault};
ghost use Rattle.rel_decls.specs.declared.fault.TextFault.TheVariants as faults;

mod align;
mod decl;
mod fault;
mod interface;
mod item;
mod judge;
pub mod laws;
mod module;
mod proc;
mod spec;
mod unit;

pub use fault::TextFault;
use rel_lang::bundle::Bundle;
use rel_lang::fault::LexKind;
use rel_lexer::{LexFault, Token, lex};
use rel_parse::fault::Fault;
use std::alloc::Global;
use std::str::from_utf8;

/// How deep a tree may be.
const DEEPEST: u32 = 64;

/// The bundle that the text stands for, where one within the limits is, or the text's fault.
pub fn parse_bundle(alloc: Global, text: &[u8]) -> Result<Bundle, TextFault>
    requires { length text.now < 2 ^ 32 }
    ensures stands { IfOk result (λ b. StandsFor text.now (bundle_of b)) }
    ensures fits { IfOk result (λ b. Fits (bundle_of b)) }
    // A text stands for one bundle at most.
    ensures only { (b : syntax.Bundle) → StandsFor text.now b → IfOk result (λ c. bundle_of c ≡ b) }
    ensures refused { IfErr result (λ e. HasFault text.now e) }
    ensures missed { IfErr result (λ e. e ≢ faults.Memory → StandsForNone text.now) }
    // A text has one fault at most.
    ensures told { IsTold text.now result }
{
    match from_utf8(text) {
        Ok(text) => read(alloc, text),
        Err(error) => Err(TextFault::NotUtf8(error.valid_up_to() as u32)),
    }
}

#[tactic(auto, using(crate::proofs::Standing::fits))]
fn read(alloc: Global, text: &str) -> Result<Bundle, TextFault>
    requires { length text.now < 2 ^ 32 }
    ensures stands { IfOk result (λ b. StandsFor text.now (bundle_of b)) }
    ensures fits { IfOk result (λ b. Fits (bundle_of b)) }
    ensures only { (b : syntax.Bundle) → StandsFor text.now b → IfOk result (λ c. bundle_of c ≡ b) }
    ensures refused { IfErr result (λ e. HasFault text.now e) }
{
    let tokens = match lex(alloc, text) {
        Ok(tokens) => tokens,
        Err(fault) => return Err(lexical(fault)),
    };
    match item::bundle(alloc, &tokens) {
        Ok((bundle, _)) => Ok(bundle),
        Err(fault) => Err(syntactic(fault, &tokens, text.len() as u32)),
    }
}

fn lexical(fault: LexFault) -> TextFault
    ensures { (text : Listed ℕ) → IsUtf8 text → IsFirstFault text fault → HasFault text result }
{
    match fault {
        LexFault::BadChar(at) => TextFault::Lexical(LexKind::BadChar, at),
        LexFault::WideLiteral(at) => TextFault::Lexical(LexKind::WideLiteral, at),
        LexFault::Memory => TextFault::Memory,
    }
}

/// The byte of the refused token, from which on so many are left, or the length of the text.
fn refused_place(tokens: &[Token<'_>], left: usize, whole: u32) -> u32
    ensures { result ≡ place_behind whole (length tokens.now - left) (tokens_of tokens.now) }
{
    match tokens.get(tokens.len().saturating_sub(left)) {
        Some(token) => token.at,
        None => whole,
    }
}

fn syntactic(fault: Fault, tokens: &[Token<'_>], whole: u32) -> TextFault
    ensures { result ≡ placed_fault fault whole tokens.now }
{
    match fault {
        Fault::Unexpected(left) => TextFault::Syntax(refused_place(tokens, left, whole)),
        Fault::TooDeep(left) => TextFault::TooDeep(refused_place(tokens, left, whole)),
        Fault::TooMany(left) => TextFault::TooMany(refused_place(tokens, left, whole)),
        Fault::Memory => TextFault::Memory,
    }
}
