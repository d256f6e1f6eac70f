// The limits of tables: the causes of 11 in a table.
ghost use Rattle.std.specs.Prelude.{◌≡◌};
ghost use Rattle.std.specs.List.{list_all};
ghost use Rattle.declare.specs.Rules.{valid_table, valid_rule};

use crate::rule::valid_rule;
use declare::{RULES, Rule, Table};

fn valid_rules(rules: &[Rule]) -> bool
    ensures { result ≡ list_all valid_rule rules.now }
{
    rules.iter().all(|rule| valid_rule(*rule))
}

// Whether the table is valid: its count, and the rules up to it.
pub fn valid_table(table: Table) -> bool
    ensures { result ≡ valid_table table }
{
    table.count <= RULES && valid_rules(&table.rules[..table.count])
}
