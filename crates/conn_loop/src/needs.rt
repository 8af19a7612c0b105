//! What is done at each need of the host.
ghost use Rattle.std.specs.Prelude.{◌≡◌, ◌<◌, true};
ghost use Rattle.conn_core.specs.Calls.{At, kind_at};
ghost use Rattle.conn_core.specs.Stands.{calls_left, Stands, State};
ghost use Rattle.conn_loop.specs.Met.{Asks, asks_host, IsHeld, Meets};

use crate::Host;
use conn_core::{Conn, Need};

/// Does the next thing that the connection needs of its host. What others do on the host's desk before and after is
/// no matter of it, as long as the ticket that it holds is held there.
pub fn act<R: Drop, P: Drop, T, H: Host<R, P, T>>(conn: &mut Conn<R, P, T>, host: &mut H)
    requires stands { (s : State R P T) × Stands conn.old s }
    requires asks { asks_host (kind_at conn.old.stage) ≡ true }
    requires held { IsHeld H.holds (H.desk host.old) conn.old }
    requires ready { H.ready host.old }
    ensures meets { Meets H.serves conn.old conn.new (H.desk host.old) (H.desk host.new) }
    ensures held { IsHeld H.holds (H.desk host.new) conn.new }
    ensures fixed { H.fixed host.new ≡ H.fixed host.old }
    ensures ready { H.ready host.new }
    ensures fewer { calls_left conn.new < calls_left conn.old }
{
    match conn.need() {
        Need::Look => look(conn, host),
        Need::Enter => enter(conn, host),
        Need::Begin => begin(conn, host),
        Need::Park => park(conn, host),
        Need::Leave => leave(conn, host),
        Need::Retire => retire(conn, host),
        Need::Resume => resume(conn, host),
        Need::Finish => finish(conn, host),
        Need::Bytes | Need::Write | Need::Close => unreachable!(),
    }
}

fn look<R, P, T, H: Host<R, P, T>>(conn: &mut Conn<R, P, T>, host: &mut H)
    requires at { At Need.Look conn.old.broken conn.old.stage }
    requires asks { Asks Need.Look H.holds (H.desk host.old) conn.old }
    requires ready { H.ready host.old }
    ensures meets { Meets H.serves conn.old conn.new (H.desk host.old) (H.desk host.new) }
    ensures held { IsHeld H.holds (H.desk host.new) conn.new }
    ensures fixed { H.fixed host.new ≡ H.fixed host.old }
    ensures ready { H.ready host.new }
    ensures fewer { calls_left conn.new < calls_left conn.old }
{
    let answer = host.look(conn.app());
    conn.give_look(answer);
}

fn enter<R: Drop, P, T, H: Host<R, P, T>>(conn: &mut Conn<R, P, T>, host: &mut H)
    requires at { At Need.Enter conn.old.broken conn.old.stage }
    requires asks { Asks Need.Enter H.holds (H.desk host.old) conn.old }
    requires ready { H.ready host.old }
    ensures meets { Meets H.serves conn.old conn.new (H.desk host.old) (H.desk host.new) }
    ensures held { IsHeld H.holds (H.desk host.new) conn.new }
    ensures fixed { H.fixed host.new ≡ H.fixed host.old }
    ensures ready { H.ready host.new }
    ensures fewer { calls_left conn.new < calls_left conn.old }
{
    let answer = host.enter(conn.take_key());
    conn.give_entry(answer);
}

fn begin<R, P, T, H: Host<R, P, T>>(conn: &mut Conn<R, P, T>, host: &mut H)
    requires at { At Need.Begin conn.old.broken conn.old.stage }
    requires asks { Asks Need.Begin H.holds (H.desk host.old) conn.old }
    requires ready { H.ready host.old }
    ensures meets { Meets H.serves conn.old conn.new (H.desk host.old) (H.desk host.new) }
    ensures held { IsHeld H.holds (H.desk host.new) conn.new }
    ensures fixed { H.fixed host.new ≡ H.fixed host.old }
    ensures ready { H.ready host.new }
    ensures fewer { calls_left conn.new < calls_left conn.old }
{
    let (rules, request) = conn.take_begin();
    let answer = host.begin(rules, request);
    conn.give_begun(answer);
}

fn park<R, P, T, H: Host<R, P, T>>(conn: &mut Conn<R, P, T>, host: &mut H)
    requires at { At Need.Park conn.old.broken conn.old.stage }
    requires asks { Asks Need.Park H.holds (H.desk host.old) conn.old }
    requires ready { H.ready host.old }
    ensures meets { Meets H.serves conn.old conn.new (H.desk host.old) (H.desk host.new) }
    ensures held { IsHeld H.holds (H.desk host.new) conn.new }
    ensures fixed { H.fixed host.new ≡ H.fixed host.old }
    ensures ready { H.ready host.new }
    ensures fewer { calls_left conn.new < calls_left conn.old }
{
    let (ticket, life, half) = conn.take_park();
    host.park(ticket, life, half);
}

fn leave<R, P, T, H: Host<R, P, T>>(conn: &mut Conn<R, P, T>, host: &mut H)
    requires at { At Need.Leave conn.old.broken conn.old.stage }
    requires asks { Asks Need.Leave H.holds (H.desk host.old) conn.old }
    requires ready { H.ready host.old }
    ensures meets { Meets H.serves conn.old conn.new (H.desk host.old) (H.desk host.new) }
    ensures held { IsHeld H.holds (H.desk host.new) conn.new }
    ensures fixed { H.fixed host.new ≡ H.fixed host.old }
    ensures ready { H.ready host.new }
    ensures fewer { calls_left conn.new < calls_left conn.old }
{
    let ticket = conn.take_leave();
    host.leave(ticket);
}

fn retire<R, P, T, H: Host<R, P, T>>(conn: &mut Conn<R, P, T>, host: &mut H)
    requires at { At Need.Retire conn.old.broken conn.old.stage }
    requires asks { Asks Need.Retire H.holds (H.desk host.old) conn.old }
    requires ready { H.ready host.old }
    ensures meets { Meets H.serves conn.old conn.new (H.desk host.old) (H.desk host.new) }
    ensures held { IsHeld H.holds (H.desk host.new) conn.new }
    ensures fixed { H.fixed host.new ≡ H.fixed host.old }
    ensures ready { H.ready host.new }
    ensures fewer { calls_left conn.new < calls_left conn.old }
{
    let half = conn.take_retire();
    let memory = host.retire(half);
    conn.give_retired(memory);
}

fn resume<R, P, T, H: Host<R, P, T>>(conn: &mut Conn<R, P, T>, host: &mut H)
    requires at { At Need.Resume conn.old.broken conn.old.stage }
    requires asks { Asks Need.Resume H.holds (H.desk host.old) conn.old }
    requires ready { H.ready host.old }
    ensures meets { Meets H.serves conn.old conn.new (H.desk host.old) (H.desk host.new) }
    ensures held { IsHeld H.holds (H.desk host.new) conn.new }
    ensures fixed { H.fixed host.new ≡ H.fixed host.old }
    ensures ready { H.ready host.new }
    ensures fewer { calls_left conn.new < calls_left conn.old }
{
    let answer = host.resume(conn.take_key());
    conn.give_claim(answer);
}

fn finish<R, P, T, H: Host<R, P, T>>(conn: &mut Conn<R, P, T>, host: &mut H)
    requires at { At Need.Finish conn.old.broken conn.old.stage }
    requires asks { Asks Need.Finish H.holds (H.desk host.old) conn.old }
    requires ready { H.ready host.old }
    ensures meets { Meets H.serves conn.old conn.new (H.desk host.old) (H.desk host.new) }
    ensures held { IsHeld H.holds (H.desk host.new) conn.new }
    ensures fixed { H.fixed host.new ≡ H.fixed host.old }
    ensures ready { H.ready host.new }
    ensures fewer { calls_left conn.new < calls_left conn.old }
{
    let (half, response) = conn.take_finish();
    let answer = host.finish(half, response);
    conn.give_ended(answer);
}
