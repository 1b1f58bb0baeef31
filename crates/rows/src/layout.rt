ghost use Rattle.std.specs.Prelude.{◌≡◌};
ghost use Rattle.rows.specs.Layouts.{parse_operand, parse_guard, parse_action, parse_row};

use crate::row::{Action, Guard, Operand, Register, Row};
use model::range::Range;
use model::value::value_of;
use tables::{Layout, TableFault};

/// The most rows of a program.
pub const MOST_ROWS: usize = 64;

/// Rows of 16 bytes, at most `MOST_ROWS` of them, with their constants in the range.
#[derive(Clone, Copy, Debug)]
pub struct RowLayout {
    pub range: Range,
}

impl RowLayout {
    /// The operand of a kind and a byte. Kinds are bytes here, since this reads the layout; the enum is what it answers.
    fn operand(&self, kind: u8, byte: u8) -> Option<Operand>
        ensures { result ≡ parse_operand self.now.range.lo self.now.range.hi kind byte }
    {
        match (kind, byte) {
            (0, 0) => Some(Operand::First),
            (1, 0) => Some(Operand::Second),
            (2, _) => {
                let value = value_of(byte);
                self.range.holds(value).then_some(Operand::Constant(value))
            }
            _ => None,
        }
    }

    fn guard(&self, kind: u8, a: u8, b: u8, c: u8, d: u8) -> Option<Guard>
        ensures { result ≡ parse_guard self.now.range.lo self.now.range.hi kind a b c d }
    {
        if kind == 0 {
            return (a == 0 && b == 0 && c == 0 && d == 0).then_some(Guard::None);
        }
        let x = self.operand(a, b)?;
        let y = self.operand(c, d)?;
        match kind {
            1 => Some(Guard::Equal(x, y)),
            2 => Some(Guard::Differs(x, y)),
            3 => Some(Guard::Less(x, y)),
            _ => None,
        }
    }

    fn action(&self, kind: u8, a: u8, b: u8) -> Option<Action>
        ensures { result ≡ parse_action self.now.range.lo self.now.range.hi kind a b }
    {
        match (kind, a, b) {
            (0, 0, 0) => Some(Action::Silent),
            (1, _, _) => Some(Action::Broadcast(self.operand(a, b)?)),
            (2, 0, 0) => Some(Action::Receive(Register::First)),
            (2, 1, 0) => Some(Action::Receive(Register::Second)),
            _ => None,
        }
    }
}

impl Layout<Row, MOST_ROWS> for RowLayout {
    ghost width = { λ _. 16 };

    ghost parse = { λ x. parse_row x.range.lo x.range.hi };

    fn width(&self) -> usize {
        16
    }

    fn read(&self, number: usize, bytes: &[u8]) -> Result<Row, TableFault> {
        let fault = TableFault::Record { number };
        let [
            from,
            guard,
            a,
            b,
            c,
            d,
            action,
            e,
            f,
            to,
            first,
            g,
            second,
            h,
            blank,
            last,
        ] = bytes
        else {
            return Err(fault);
        };
        if *from > 63 || *to > 63 || *blank != 0 || *last != 0 {
            return Err(fault);
        }
        Ok(Row {
            from: *from,
            guard: self.guard(*guard, *a, *b, *c, *d).ok_or(fault)?,
            action: self.action(*action, *e, *f).ok_or(fault)?,
            to: *to,
            first: self.operand(*first, *g).ok_or(fault)?,
            second: self.operand(*second, *h).ok_or(fault)?,
        })
    }
}
