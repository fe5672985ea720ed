//! What a machine that runs live talks to.

use pinball_shell::ShellFault;
use std::io;

/// The most bytes that a line may have, its end not counted.
pub const LONGEST_LINE: usize = 4096;

/// What a machine talks to: it hears lines, and tells answers. A link may report its talk: what was
/// heard and told, in one order, and the text that is left to be heard. What is at the other end, no
/// contract can say.
pub trait Link: Drop {
    ghost use Rattle.std.specs.Prelude.{Bool, Option, IfOk, IfErr, IfSome, ◌≡◌, ◌≤◌, ◌⊎◌, length};
    ghost use Rattle.live_machine.specs.Talk.{LinkView, Hears, Tells};

    /// Whether the talk that is reported shows the lines that were heard. Of a link for which it does
    /// not, the talk is all that was told.
    ghost shows_lines: { Bool };
    /// The talk so far and the text that is left, if the link reports them.
    ghost report: { Self → Option LinkView };

    /// Hears the next line, and puts it into the room, without its end. Gives its length; none if no
    /// line is left. LF ends a line, and a CR directly before it is no part of the line. The last line
    /// may lack its end.
    ///
    /// # Errors
    ///
    /// Nothing was heard then.
    ///
    /// - `Read`: a read failed.
    /// - `TooLong`: the next line has more bytes than the room, or more than 4,096.
    fn hear(&mut self, room: &mut [u8]) -> Result<Option<usize>, ShellFault>
        ensures hears { Hears shows_lines room.new (report self.old) (report self.new) result }
        ensures within { IfOk result (λ len. IfSome len (λ n. n ≤ length room.new)) }
        ensures fails { IfErr result (λ e. (e ≡ ShellFault.Read) ⊎ (e ≡ ShellFault.TooLong)) };

    /// Tells a text, or its first bytes, and gives how many. They have been sent on their way then.
    ///
    /// # Errors
    ///
    /// Those of the link. Nothing was told then.
    fn tell(&mut self, text: &[u8]) -> io::Result<usize>
        ensures tells { Tells text.now (report self.old) (report self.new) result }
        ensures within { IfOk result (λ n. n ≤ length text.now) };
}
