//! Reads one tree from a token on, and names tokens by their number.

ghost use Rattle.std.specs.Prelude.{◌≡◌, ◌≤◌, suc, length, All, IfOk, IfErr};
ghost use Rattle.rel_lang.specs.Refusal.{limits};
ghost use Rattle.rel_lang.specs.Syntax as syntax;
ghost use Rattle.rel_lang.specs.Text.{show_expression, show_formula, show_rel, show_block, show_biblock, IsShapedBiblock};
ghost use Rattle.rel_lang.specs.View.{expression_of, formula_of, rel_of, block_of, biblock_of};
ghost use Rattle.rel_lexer.specs.Tokens.{HasKind};
ghost use Rattle.rel_parse.specs.declared.tree.ParseFault.TheVariants as refusal;
ghost use Rattle.rel_parse.specs.Trees.{Any, Stands, IsRead, IsWithinLimits, HasParseFault, numbered_fault, numbered};

use crate::biprogram::biblock;
use crate::command::block;
use crate::expr::expression;
use crate::fault::Fault;
use crate::formula::formula;
use crate::relation::rel;
use crate::token::Read;
use rel_lang::biprogram::BiCommand;
use rel_lang::command::Command;
use rel_lang::expr::Expr;
use rel_lang::formula::Formula;
use rel_lang::relation::RelFormula;
use rel_lexer::Token;
use rel_list::List;
use std::alloc::Global;

/// The least depth that is too deep.
const TOO_DEEP: u32 = 65;

/// Why the tokens from one on aren't a tree, with the number of the refused token. Behind the last one, that is how many tokens there are.
#[derive(Clone, Copy, Debug, PartialEq, Eq, Drop)]
pub enum ParseFault {
    /// No tree goes on with this token.
    Unexpected(usize),
    /// With this token a tree begins that is too deep.
    TooDeep(usize),
    /// With this token an element begins that is one too many.
    TooMany(usize),
    Memory,
}

fn numbered_fault(fault: Fault, whole: usize) -> ParseFault
    ensures { result ≡ numbered_fault whole fault }
{
    match fault {
        Fault::Unexpected(left) => ParseFault::Unexpected(whole.saturating_sub(left)),
        Fault::TooDeep(left) => ParseFault::TooDeep(whole.saturating_sub(left)),
        Fault::TooMany(left) => ParseFault::TooMany(whole.saturating_sub(left)),
        Fault::Memory => ParseFault::Memory,
    }
}

/// What was read of so many tokens, with the number of the token behind it.
fn numbered<T: Drop>(read: Read<'_, T>, whole: usize) -> Result<(T, usize), ParseFault>
    ensures { result ≡ numbered (λ x. (x.0, x.1.now)) whole read.entry }
{
    match read {
        Ok((tree, rest)) => Ok((tree, whole.saturating_sub(rest.len()))),
        Err(fault) => Err(numbered_fault(fault, whole)),
    }
}

/// The expression of this depth from a token on, with the number of the token behind it.
pub fn parse_expr(
    alloc: Global,
    tokens: &[Token<'_>],
    from: usize,
    depth: u32,
) -> Result<(Expr, usize), ParseFault>
    requires kinds { All HasKind tokens.now }
    requires inside { from ≤ length tokens.now }
    requires at_most { depth ≤ suc limits.deepest }
    ensures read { IfOk result (λ x. IsRead (show_expression depth) Any from tokens.now (expression_of x.0) x.1) }
    // No other expression stands there.
    ensures only { (e : syntax.Expression) → Stands (show_expression depth) Any from tokens.now e → IfOk result (λ x. expression_of x.0 ≡ e) }
    // One within the limits is refused only for want of memory.
    ensures found { (e : syntax.Expression) → Stands (show_expression depth) Any from tokens.now e → IsWithinLimits (show_expression depth) e → IfErr result (λ f. f ≡ refusal.Memory) }
    ensures refused { IfErr result (λ f. HasParseFault (show_expression depth) Any from tokens.now f) }
{
    numbered(
        expression(alloc, &tokens[from..], TOO_DEEP - depth),
        tokens.len(),
    )
}

/// The formula of this depth from a token on, with the number of the token behind it.
pub fn parse_formula(
    alloc: Global,
    tokens: &[Token<'_>],
    from: usize,
    depth: u32,
) -> Result<(Formula, usize), ParseFault>
    requires kinds { All HasKind tokens.now }
    requires inside { from ≤ length tokens.now }
    requires at_most { depth ≤ suc limits.deepest }
    ensures read { IfOk result (λ x. IsRead (show_formula depth) Any from tokens.now (formula_of x.0) x.1) }
    // No other formula stands there.
    ensures only { (p : syntax.Formula) → Stands (show_formula depth) Any from tokens.now p → IfOk result (λ x. formula_of x.0 ≡ p) }
    // One within the limits is refused only for want of memory.
    ensures found { (p : syntax.Formula) → Stands (show_formula depth) Any from tokens.now p → IsWithinLimits (show_formula depth) p → IfErr result (λ f. f ≡ refusal.Memory) }
    ensures refused { IfErr result (λ f. HasParseFault (show_formula depth) Any from tokens.now f) }
{
    numbered(
        formula(alloc, &tokens[from..], TOO_DEEP - depth),
        tokens.len(),
    )
}

/// The relation formula of this depth from a token on, with the number of the token behind it.
pub fn parse_rel(
    alloc: Global,
    tokens: &[Token<'_>],
    from: usize,
    depth: u32,
) -> Result<(RelFormula, usize), ParseFault>
    requires kinds { All HasKind tokens.now }
    requires inside { from ≤ length tokens.now }
    requires at_most { depth ≤ suc limits.deepest }
    ensures read { IfOk result (λ x. IsRead (show_rel depth) Any from tokens.now (rel_of x.0) x.1) }
    // No other relation formula stands there.
    ensures only { (r : syntax.RelFormula) → Stands (show_rel depth) Any from tokens.now r → IfOk result (λ x. rel_of x.0 ≡ r) }
    // One within the limits is refused only for want of memory.
    ensures found { (r : syntax.RelFormula) → Stands (show_rel depth) Any from tokens.now r → IsWithinLimits (show_rel depth) r → IfErr result (λ f. f ≡ refusal.Memory) }
    ensures refused { IfErr result (λ f. HasParseFault (show_rel depth) Any from tokens.now f) }
{
    numbered(rel(alloc, &tokens[from..], TOO_DEEP - depth), tokens.len())
}

/// The commands of this depth between braces, from a token on, with the number of the token behind it.
pub fn parse_block(
    alloc: Global,
    tokens: &[Token<'_>],
    from: usize,
    depth: u32,
) -> Result<(List<Command>, usize), ParseFault>
    requires kinds { All HasKind tokens.now }
    requires inside { from ≤ length tokens.now }
    requires at_most { depth ≤ suc limits.deepest }
    ensures read { IfOk result (λ x. IsRead (show_block depth) Any from tokens.now (block_of x.0) x.1) }
    // No other block stands there.
    ensures only { (b : syntax.Block) → Stands (show_block depth) Any from tokens.now b → IfOk result (λ x. block_of x.0 ≡ b) }
    // One within the limits is refused only for want of memory.
    ensures found { (b : syntax.Block) → Stands (show_block depth) Any from tokens.now b → IsWithinLimits (show_block depth) b → IfErr result (λ f. f ≡ refusal.Memory) }
    ensures refused { IfErr result (λ f. HasParseFault (show_block depth) Any from tokens.now f) }
{
    numbered(
        block(alloc, &tokens[from..], TOO_DEEP - depth),
        tokens.len(),
    )
}

/// The bicommands of this depth between braces, from a token on, with the number of the token behind it.
pub fn parse_biblock(
    alloc: Global,
    tokens: &[Token<'_>],
    from: usize,
    depth: u32,
) -> Result<(List<BiCommand>, usize), ParseFault>
    requires kinds { All HasKind tokens.now }
    requires inside { from ≤ length tokens.now }
    requires at_most { depth ≤ suc limits.deepest }
    ensures read { IfOk result (λ x. IsRead (show_biblock depth) IsShapedBiblock from tokens.now (biblock_of x.0) x.1) }
    // No other block of bicommands stands there.
    ensures only { (b : syntax.BiBlock) → Stands (show_biblock depth) IsShapedBiblock from tokens.now b → IfOk result (λ x. biblock_of x.0 ≡ b) }
    // One within the limits is refused only for want of memory.
    ensures found { (b : syntax.BiBlock) → Stands (show_biblock depth) IsShapedBiblock from tokens.now b → IsWithinLimits (show_biblock depth) b → IfErr result (λ f. f ≡ refusal.Memory) }
    ensures refused { IfErr result (λ f. HasParseFault (show_biblock depth) IsShapedBiblock from tokens.now f) }
{
    numbered(
        biblock(alloc, &tokens[from..], TOO_DEEP - depth),
        tokens.len(),
    )
}
