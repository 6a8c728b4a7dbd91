// A cursor: the rows that it has left.
use ss_model::Placed;
use std::collections::VecDeque;
use std::marker::Model;

// The rows that a cursor has left, next first.
#[derive(Drop)]
pub struct Cursor {
    rows: VecDeque<Placed>,
}

impl Model for Cursor {
    ghost use Rattle.std.specs.Prelude.{◌<◌, ◌^◌, List, length};
    ghost use Rattle.ss_model.specs.declared.types.Placed.{Placed};

    ghost Value = { List Placed };

    ghost view = { λ c. c.rows.items };

    ghost invariant = { λ c. length c.rows.items < 2 ^ 32 };
}

impl Cursor {
    ghost use Rattle.std.specs.Prelude.{◌≡◌, ◌<◌, ◌^◌, length, drop, slice_get};

    // One over these rows.
    pub fn over(rows: VecDeque<Placed>) -> Cursor
        requires { length rows.items < 2 ^ 32 }
        ensures { result ≡ rows.items }
    {
        Cursor { rows }
    }

    // How many rows are left.
    pub fn left(&self) -> u32
        ensures { result ≡ length self.now }
    {
        self.rows.len() as u32
    }

    // Gives the next row, if one is left.
    pub fn take(&mut self) -> Option<Placed>
        ensures next { result ≡ slice_get self.old 0 }
        ensures rest { self.new ≡ drop 1 self.old }
    {
        self.rows.pop_front()
    }
}
