//! Tests of a server under load: four readers and two writers call it over a million times.
// Meanwhile tables grow, are fixed and traversed, and processes end and leave their tables to heirs. Each reader and
// writer checks the replies against its own writes; it 'is right' if all replies are right. A reader or writer is the
// last caller of a team. The other callers of a writer's team are its guests: they end, and the writer inherits their
// tables. `None` means that memory ran out, or that a call which must succeed was refused.
ghost use Rattle.std.specs.Prelude.{◌≡◌};
ghost use Rattle.std.specs.Thread.{IsSync};

mod reader; // the calls of a reader
mod writer; // the calls of a writer

use super::calls::expect_value_formatted;
use super::{join_callers, limits};
use crate::tests::stressing::reader::reader_is_right;
use crate::tests::stressing::writer::writer_is_right;
use ets_term::{Fnv, KeyHash};
use node_core::Limits;
use node_shared::{Caller, HistoryId, Locking, NewHistory, Server};
use std::alloc::Global;
use std::marker::Brand;
use std::sync::Wait;
use std::test::Fail;
use std::thread;
use std::thread::Threads;

/// The number of operations of a reader. An operation is one call, or a whole traversal.
const READER_OPERATIONS: u32 = 200_000;

/// The number of batches of a writer. A batch is ten calls and a read. Before some of them the writer inherits a table.
const BATCHES: u32 = 10_000;

/// A writer never deletes the keys below this number from its table: the kept keys.
const KEPT_KEYS: u32 = 1_000;

/// The number of processes that each writer inherits from.
const GUESTS: u32 = 20;

/// The number of callers: four readers, and two writers with their guests.
const CALLERS: usize = 46;

/// The process numbers of the writers. Teams take callers from the end of the list. The team of the first writer has
/// the processes 45 to 25, that of the second 24 to 4. The last caller of a team is the writer.
const WRITERS: [u32; 2] = [25, 4];

/// The number of teams: two of a writer, and four of a reader.
const TEAMS: u32 = 6;

/// The team of a writer: how many guests it has, and how many keys its table starts with.
const WRITER_TEAM: (u32, u32) = (GUESTS, KEPT_KEYS);

/// The same for the team of a reader, which is the reader alone.
const READER_TEAM: (u32, u32) = (0, 0);

/// Takes a team from the end of the callers: the guests, and then the caller that makes the calls.
fn take_team<B: HistoryId>(
    alloc: Global,
    callers: &mut Vec<Caller<B>>,
    guests: u32,
) -> Option<Vec<Caller<B>>> {
    let mut team = Vec::new(alloc);
    for _ in 0..=guests {
        team.push(callers.pop()?).ok()?;
    }
    Some(team)
}

/// Makes the table of a caller, whose name has its process number, and inserts the keys below `keys`. Returns `None` if
/// a call is refused.
fn set_up<B: HistoryId, R: Wait>(
    rt: &R,
    alloc: Global,
    server: &Server<B, Fnv>,
    caller: &mut Caller<B>,
    keys: u32,
) -> Option<()> {
    let table = caller.pid();
    let options = format!(in alloc; "[t{table},[named_table,public]]");
    expect_value_formatted(rt, alloc, server, caller, ("new", options))?;
    for key in 0..keys {
        let object = format!(in alloc; "[t{table},{{{key},0}}]");
        expect_value_formatted(rt, alloc, server, caller, ("insert", object))?;
    }
    Some(())
}

/// Takes a team from the callers, and makes the table of its last caller. The pair is the number of guests, and of
/// keys.
fn form_team<B: HistoryId, R: Wait>(
    rt: &R,
    alloc: Global,
    server: &Server<B, Fnv>,
    callers: &mut Vec<Caller<B>>,
    (guests, keys): (u32, u32),
) -> Option<Vec<Caller<B>>> {
    let mut team = take_team(alloc, callers, guests)?;
    set_up(rt, alloc, server, team.last_mut()?, keys)?;
    Some(team)
}

/// Enrols all callers, and returns the teams. Each has its table.
fn form_teams<B: HistoryId, R: Wait>(
    rt: &R,
    alloc: Global,
    server: &Server<B, Fnv>,
) -> Option<Vec<Vec<Caller<B>>>> {
    let mut callers = join_callers(rt, alloc, server, CALLERS)?;
    let mut teams = Vec::new(alloc);
    for team in [
        WRITER_TEAM,
        WRITER_TEAM,
        READER_TEAM,
        READER_TEAM,
        READER_TEAM,
        READER_TEAM,
    ] {
        teams
            .push(form_team(rt, alloc, server, &mut callers, team)?)
            .ok()?;
    }
    Some(teams)
}

/// Runs each team in a thread of its own: splits the teams into halves until one is left. Returns how many had only
/// right replies. The closures require that threads may share the runtime (`IsSync`).
fn count_right<
    B: HistoryId + Send + Sync,
    H: KeyHash + Copy + Drop + Send + Sync,
    R: Threads + Wait + Sync,
>(rt: &R, server: &Server<B, H>, mut teams: Vec<Vec<Caller<B>>>) -> u32 {
    if teams.len() < 2 {
        return match teams.pop() {
            Some(team) => u32::from(matches!(team_is_right(rt, server, team), Some(true))),
            None => 0,
        };
    }
    let half = teams.len() / 2;
    let Ok(back) = teams.split_off(half) else {
        return 0;
    };
    let (front_count, back_count) = thread::join(
        rt,
        move || -> u32
            requires { IsSync R.row }
        { count_right(rt, server, teams) },
        move || -> u32
            requires { IsSync R.row }
        { count_right(rt, server, back) },
    );
    front_count.wrapping_add(back_count)
}

/// Makes all calls of a team: of a reader if it has no guests, else of a writer. Returns whether all replies are right.
fn team_is_right<B: HistoryId, H: KeyHash + Copy + Drop, R: Wait>(
    rt: &R,
    server: &Server<B, H>,
    mut team: Vec<Caller<B>>,
) -> Option<bool> {
    let alloc = *team.allocator();
    let mut caller = team.pop()?;
    if team.is_empty() {
        reader_is_right(rt, alloc, server, &mut caller)
    } else {
        writer_is_right(rt, alloc, server, &mut caller, &mut team)
    }
}

/// Creates a server, and lets all teams make their calls. Returns whether all have only right replies. `B` names the
/// history and the limits: the book of the kit's crate `logbook` has the history, and the root is the key of its first
/// pen.
fn new_server_is_right<B: HistoryId + Send + Sync, R: Threads + Wait + Sync>(
    rt: &R,
    alloc: Global,
    locking: Locking,
    history: NewHistory,
    limits: Limits,
) -> Option<bool>
    requires book { history.seen.book ≡ B.book }
    requires root { history.turn.nib.key ≡ B.root }
    requires limits { limits ≡ B.limits }
{
    let server = Server::<B, Fnv>::new(alloc, locking, history, limits, Fnv).ok()?;
    teams_are_right(rt, alloc, &server)
}

/// Forms all teams, and lets them make their calls. Returns whether all have only right replies.
fn teams_are_right<B: HistoryId + Send + Sync, R: Threads + Wait + Sync>(
    rt: &R,
    alloc: Global,
    server: &Server<B, Fnv>,
) -> Option<bool> {
    let teams = form_teams(rt, alloc, server)?;
    Some(count_right(rt, server, teams) == TEAMS)
}

/// Runs two rounds, one with each kind of lock, for 46 processes: the `CALLERS`. Returns whether both have only right
/// replies.
fn two_rounds_are_right<R: Threads + Wait + Sync>(rt: &R, alloc: Global) -> Option<bool> {
    for locking in [Locking::Single, Locking::Sharded] {
        let history = NewHistory::new();
        if !new_server_is_right::<Brand, R>(rt, alloc, locking, history, limits(46))? {
            return Some(false);
        }
    }
    Some(true)
}

// Ten rounds, in five tests, since a test may take at most one minute.

/// Runs the first two of ten rounds.
#[test]
fn rounds_one_and_two_have_right_replies(rt: HostRuntime) -> Result<(), Fail> {
    assert!(rt;
        two_rounds_are_right(&rt, rt.alloc()).ok_or("no memory, or a call refused at the setup")?
    );
    Ok(())
}

/// Runs two more rounds.
#[test]
fn rounds_three_and_four_have_right_replies(rt: HostRuntime) -> Result<(), Fail> {
    assert!(rt;
        two_rounds_are_right(&rt, rt.alloc()).ok_or("no memory, or a call refused at the setup")?
    );
    Ok(())
}

/// Runs two more rounds.
#[test]
fn rounds_five_and_six_have_right_replies(rt: HostRuntime) -> Result<(), Fail> {
    assert!(rt;
        two_rounds_are_right(&rt, rt.alloc()).ok_or("no memory, or a call refused at the setup")?
    );
    Ok(())
}

/// Runs two more rounds.
#[test]
fn rounds_seven_and_eight_have_right_replies(rt: HostRuntime) -> Result<(), Fail> {
    assert!(rt;
        two_rounds_are_right(&rt, rt.alloc()).ok_or("no memory, or a call refused at the setup")?
    );
    Ok(())
}

/// Runs the last two rounds.
#[test]
fn rounds_nine_and_ten_have_right_replies(rt: HostRuntime) -> Result<(), Fail> {
    assert!(rt;
        two_rounds_are_right(&rt, rt.alloc()).ok_or("no memory, or a call refused at the setup")?
    );
    Ok(())
}
