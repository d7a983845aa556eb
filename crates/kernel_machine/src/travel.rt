//! A travel in the tree: how an undo, a redo and a goto go, up first and then down.
ghost use Rattle.std.specs.Prelude.{◌≡◌, ◌<◌, ◌↔◌, IsTrue};
ghost use Rattle.kernel_machine.specs.Travel.{next_way};
ghost use Rattle.kernel_machine.specs.Slices.{cells, stepped};
ghost use Rattle.kernel_machine.specs.Begins.{travel_to};
ghost use Rattle.kernel_machine.specs.Legal.{IsCounted};

/// The two ways along the tree.
#[derive(Clone, Copy)]
pub enum Way {
    Up,
    Down,
}

/// What a travel was asked for: some cells up, some cells down along favourites, or a node.
#[derive(Clone, Copy)]
pub enum Aim {
    Undo,
    Redo,
    Goto(usize),
}

/// A travel: how many cells are still to go each way, and how many are gone.
#[derive(Clone, Copy)]
pub struct Travel {
    pub aim: Aim,
    pub up: usize,
    pub down: usize,
    pub went_up: usize,
    pub went_down: usize,
}

impl Travel {
    /// A travel of `up` cells up, and then `down` cells down.
    pub fn new(aim: Aim, up: usize, down: usize) -> Travel
        ensures { result ≡ travel_to aim up down }
    {
        Travel {
            aim,
            up,
            down,
            went_up: 0,
            went_down: 0,
        }
    }

    /// The way of the next cell.
    pub fn way(self) -> Way
        ensures { result ≡ next_way self }
    {
        if self.up > 0 { Way::Up } else { Way::Down }
    }

    /// Whether no cell is left.
    pub fn is_over(self) -> bool
        ensures { IsTrue result ↔ (cells self ≡ 0) }
    {
        self.up == 0 && self.down == 0
    }

    /// The travel with one cell more gone.
    pub fn stepped(self) -> Travel
        requires some { 0 < cells self }
        requires counted { IsCounted self }
        ensures { result ≡ stepped self }
    {
        match self.way() {
            Way::Up => Travel {
                aim: self.aim,
                up: self.up - 1,
                down: self.down,
                went_up: self.went_up + 1,
                went_down: self.went_down,
            },
            Way::Down => Travel {
                aim: self.aim,
                up: self.up,
                down: self.down - 1,
                went_up: self.went_up,
                went_down: self.went_down + 1,
            },
        }
    }
}
