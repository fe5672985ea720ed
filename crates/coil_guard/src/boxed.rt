//! Boxes of boards are boards.

use crate::board::{Board, BoardFault};
use crate::command::Command;

impl Board for Box<dyn Board> {
    ghost fault_count = { λ b. (Board-box b).fault_count b.value };

    ghost command_list = { λ b. (Board-box b).command_list b.value };

    ghost answers = { λ b. (Board-box b).answers b.value };

    fn send(&mut self, command: Command) -> Result<(), BoardFault> {
        (**self).send(command)
    }

    fn faults(&self) -> u64 {
        (**self).faults()
    }
}
