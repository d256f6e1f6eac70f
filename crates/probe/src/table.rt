// The table under construction.
use crate::command::Command;
use declare::slots::empty_table;
use declare::{Comparison, Condition, End, Operator, RULES, Reference, Rule, Table, Window};

// The numbers are those of tests/PROBE.md, here and below.
fn operator(b: u8) -> Operator {
    match b {
        0 => Operator::Equal,
        1 => Operator::NotEqual,
        2 => Operator::Less,
        3 => Operator::AtMost,
        4 => Operator::Greater,
        _ => Operator::AtLeast,
    }
}

fn comparison(command: Command) -> Comparison {
    let k = command.constant();
    Comparison {
        reading: command.bytes[4],
        operator: operator(command.bytes[5]),
        reference: if command.bytes[6] == 0 {
            Reference::Constant(k)
        } else {
            Reference::Activation(command.bytes[7], k)
        },
    }
}

// The commands n and c.
fn change_condition(c: &mut Condition, command: Command) {
    if command.letter() == b'n' {
        c.count = command.bytes[3];
        return;
    }
    match command.bytes[3] {
        0 => c.first = comparison(command),
        1 => c.second = comparison(command),
        2 => c.third = comparison(command),
        3 => c.fourth = comparison(command),
        _ => {}
    }
}

fn end(command: Command) -> End {
    if command.bytes[5] == 0 {
        None
    } else {
        Some(command.high_half())
    }
}

// The commands r, n and c.
fn change_rule(rule: &mut Rule, command: Command) {
    if command.letter() == b'r' {
        rule.code = command.bytes[2];
        rule.activation = command.bytes[3];
        rule.target = command.bytes[4];
        rule.window = Window {
            from: command.low_half(),
            until: end(command),
        };
    } else if command.bytes[2] == 0 {
        change_condition(&mut rule.condition, command);
    } else {
        change_condition(&mut rule.correlation, command);
    }
}

// The commands t, r, n and c.
pub fn change(table: &mut Table, command: Command) {
    if command.letter() == b't' {
        *table = empty_table();
        table.count = command.count();
        return;
    }
    let at = usize::from(command.bytes[1]);
    if at < RULES {
        change_rule(&mut table.rules[at], command);
    }
}
