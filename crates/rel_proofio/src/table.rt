//! The table of the rules, as steps name them.

ghost use Rattle.std.specs.Prelude.{◌≡◌, map, bytes_eq, find, option_map};
ghost use Rattle.rel_proofio.specs.Table.{rules, rule_of, rule_named};

use Argument::{Class, Formula, Integer, Multiples, Number, Term};

/// What an argument is.
#[derive(Clone, Copy, Debug, PartialEq, Eq)]
pub enum Argument {
    /// The number of a formula of the node.
    Number,
    Term,
    Formula,
    Class,
    /// Numbers of formulas, each with a multiplier.
    Multiples,
    Integer,
}

/// The number of a row, its name, and its arguments in their order.
#[derive(Clone, Copy)]
pub struct Rule<'a>(pub u8, pub &'a str, pub &'a [Argument]);

const RULES: [Rule<'_>; 46] = [
    Rule(1, "close", &[Number, Number]),
    Rule(2, "absurd", &[Number]),
    Rule(3, "and", &[Number]),
    Rule(4, "nor", &[Number]),
    Rule(5, "nimp", &[Number]),
    Rule(6, "nn", &[Number]),
    Rule(7, "or", &[Number]),
    Rule(8, "nand", &[Number]),
    Rule(9, "imp", &[Number]),
    Rule(10, "cut", &[Formula]),
    Rule(11, "all", &[Number, Term]),
    Rule(12, "nsome", &[Number, Term]),
    Rule(13, "some", &[Number]),
    Rule(14, "nall", &[Number]),
    Rule(15, "refl", &[Term]),
    Rule(16, "replace", &[Number, Number, Formula]),
    Rule(17, "readhit", &[Term, Term, Term]),
    Rule(18, "readmiss", &[Term, Term, Term, Term]),
    Rule(19, "bijone", &[Number, Number]),
    Rule(20, "bijclass", &[Number, Class]),
    Rule(21, "extpair", &[Number, Number]),
    Rule(22, "extrefl", &[Term]),
    Rule(23, "exttrans", &[Number, Number]),
    Rule(24, "addext", &[Term, Term, Term]),
    Rule(25, "addpair", &[Number]),
    Rule(26, "addlink", &[Term, Term, Term, Class]),
    Rule(27, "nonnull", &[Number]),
    Rule(28, "istwo", &[Number, Number]),
    Rule(29, "inempty", &[Number]),
    Rule(30, "insingle", &[Number]),
    Rule(31, "ninsingle", &[Number]),
    Rule(32, "inunion", &[Number]),
    Rule(33, "ninunion", &[Number]),
    Rule(34, "inmeet", &[Number]),
    Rule(35, "ninmeet", &[Number]),
    Rule(36, "inminus", &[Number]),
    Rule(37, "ninminus", &[Number]),
    Rule(38, "infilter", &[Number]),
    Rule(39, "ninfilter", &[Number]),
    Rule(40, "inimage", &[Number]),
    Rule(41, "ninimage", &[Number, Term]),
    Rule(42, "ext", &[Number]),
    Rule(43, "farkas", &[Multiples]),
    Rule(44, "round", &[Multiples, Integer, Formula]),
    Rule(45, "neint", &[Number]),
    Rule(46, "lineq", &[Term, Term]),
];

#[tactic(auto, unfolding(crate::specs::Table::rules))]
fn all_rules() -> &'static [Rule<'static>]
    ensures { map rule_of result.now ≡ rules }
{
    &RULES
}

fn among<'a>(rules: &[Rule<'a>], name: &str) -> Option<Rule<'a>>
    ensures { result ≡ find (λ r. bytes_eq name.now (rule_of r).name) rules.now }
{
    rules.iter().copied().find(|rule| name == rule.1)
}

/// The rule with this name.
pub fn rule_named(name: &str) -> Option<Rule<'static>>
    ensures { option_map rule_of result ≡ rule_named name.now }
{
    among(all_rules(), name)
}
