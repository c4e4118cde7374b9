// Plain passes.
ghost use Rattle.std.specs.Prelude.{◌≡◌, ◌^◌, ◌≤◌};
ghost use Rattle.tb_moves.specs.Moves.{IsPlain, zero_state};
ghost use Rattle.tb_moves.specs.Sessions.{AreAlike, inside_of, mesh_of, state_of};

use crate::judge::is_reached;
use tb_moves::Session;

/// Makes plain passes, at most so many, until the interval is at most so wide, in µW/K, or a pass changes nothing.
pub fn narrow(session: &mut Session, width: u64, sweeps: u32)
    requires { width ≤ 10 ^ 9 }
    ensures { AreAlike session.old session.new }
{
    for _sweep in 0..sweeps {
        if is_reached(session.interval(), width) {
            return;
        }
        if !session.pass() {
            return;
        }
    }
}

/// Makes so many plain passes from the zero field and the zero flux. It ends early where a pass changes nothing, since the
/// later ones wouldn't either.
pub fn make_plain(session: &mut Session, sweeps: u32)
    requires { state_of session.old ≡ zero_state (mesh_of session.old) }
    ensures alike { AreAlike session.old session.new }
    ensures plain { IsPlain (mesh_of session.old) (inside_of session.old) sweeps (state_of session.new) }
{
    for _sweep in 0..sweeps {
        if !session.pass() {
            return;
        }
    }
}
