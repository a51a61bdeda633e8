// Laws of the definitions, as contracts of functions that do nothing.
ghost use Rattle.std.specs.Prelude.{◌≡◌, ◌↔◌, Bool, List, IsPermutation, IsTrue};
ghost use Rattle.std.specs.Str.{chars};
ghost use Rattle.finding_filters.specs.Baseline.{ItemParts, known};
ghost use Rattle.finding_filters.specs.Patterns.{IsRuled, IsTaken, glob_takes, rule_takes};

use crate::patterns::{Glob, Rule};

/// The test of a pattern of files is what it means: a name is cut into a piece for each token, and
/// a slash or nothing comes after them.
pub fn glob_means(_glob: &Glob, _name: &str)
    ensures { IsTrue (glob_takes _glob.now (chars _name.now)) ↔ IsTaken _glob.now (chars _name.now) }
{}

/// The same of a pattern of rules.
pub fn rule_means(_rule: &Rule, _scope: &str, _code: &str)
    ensures { IsTrue (rule_takes _rule.now _scope.now _code.now)
        ↔ IsRuled _rule.now _scope.now _code.now }
{}

/// The order of a baseline's entries is no matter.
pub fn order_is_no_matter()
    ensures { (items entries others : List ItemParts) (flags : List Bool)
        → IsPermutation entries others → known items flags entries ≡ known items flags others }
{}
