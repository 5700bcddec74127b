//! The calls that the clients of a night draw, at a server that answers as RFC 1813 asks.

mod seen;

use crate::server::{COMMON, Habits, Tree, handle_of};
use nfs3_types::Procedure;
use night_calls::{Client, Mix};
use seen::Seen;
use std::alloc::{AllocError, Global};
use std::test::Fail;

/// The clients of a night.
pub(crate) fn clients_of(
    alloc: Global,
    seed: u64,
    mix: Mix,
    clients: u32,
) -> Result<Vec<Client>, AllocError> {
    let mut all = Vec::new(alloc);
    for number in 0..clients {
        let root = handle_of(alloc, 0)?;
        all.push(Client::new(alloc, seed, number, clients, root, mix))?;
    }
    Ok(all)
}

/// One call of a client, and its reply. Whether it was a MKDIR that succeeded.
fn step(client: &mut Client, tree: &mut Tree, seen: &mut Seen) -> Result<bool, AllocError> {
    let stamp = client.stamp();
    let call = client.next()?;
    let reply = tree.reply(&call)?;
    seen.see(stamp, &call, &reply);
    client.learn(&call, &reply)?;
    Ok(call.procedure() == Procedure::MkDir && reply.failure().is_none())
}

/// So many calls of each client, in turn.
fn steps(
    all: &mut [Client],
    tree: &mut Tree,
    seen: &mut Seen,
    calls: u32,
) -> Result<(), AllocError> {
    for _ in 0..calls {
        for client in all.iter_mut() {
            step(client, tree, seen)?;
        }
    }
    Ok(())
}

/// So many calls of each client before the server runs again with another verifier, and as many after.
fn night(alloc: Global, seed: u64, mix: Mix, clients: u32, calls: u32) -> Result<Seen, AllocError> {
    let mut tree = Tree::new(alloc, &[], COMMON)?;
    let mut seen = Seen::new();
    let mut all = clients_of(alloc, seed, mix, clients)?;
    steps(all.as_mut_slice(), &mut tree, &mut seen, calls)?;
    tree.verifier = 2;
    for client in all.iter_mut() {
        client.new_era();
    }
    steps(all.as_mut_slice(), &mut tree, &mut seen, calls)?;
    Ok(seen)
}

#[test]
fn all_is_asked(rt: HostRuntime) -> Result<(), Fail> {
    for mix in [Mix::Shared, Mix::Race, Mix::Turns] {
        let seen = night(rt.alloc(), 7, mix, 4, 500)?;
        assert_eq!(rt; seen.missing(), None);
        assert!(rt; seen.untold == 0);
    }
    let seen = night(rt.alloc(), 7, Mix::Private, 4, 500)?;
    assert_eq!(rt; seen.missing(), None);
    assert!(rt; seen.untold == 0 && seen.has_moves_and_names());
    Ok(())
}

#[test]
fn a_seed_makes_the_same_calls(rt: HostRuntime) -> Result<(), Fail> {
    let first = night(rt.alloc(), 7, Mix::Turns, 3, 100)?.trace;
    let same = night(rt.alloc(), 7, Mix::Turns, 3, 100)?.trace;
    let other = night(rt.alloc(), 8, Mix::Turns, 3, 100)?.trace;
    assert!(rt; first == same && first != other);
    Ok(())
}

/// Whether a client looks a name up once it has made its directory, whose handle the reply gave or not, and if the server ran again then.
fn looks_up(alloc: Global, gives_made: bool, is_new_era: bool) -> Result<bool, AllocError> {
    let habits = Habits {
        gives_made,
        ..COMMON
    };
    let mut tree = Tree::new(alloc, &[], habits)?;
    let mut client = Client::new(alloc, 7, 0, 1, handle_of(alloc, 0)?, Mix::Private);
    let mut seen = Seen::new();
    for _ in 0..100 {
        if step(&mut client, &mut tree, &mut seen)? {
            break;
        }
    }
    if is_new_era {
        client.new_era();
    }
    Ok(client.next()?.procedure() == Procedure::Lookup)
}

#[test]
fn names_are_looked_up(rt: HostRuntime) -> Result<(), Fail> {
    let without = looks_up(rt.alloc(), false, false)?;
    let with = looks_up(rt.alloc(), true, true)?;
    assert!(rt; without && with);
    Ok(())
}

/// How much these clients have still to look at.
fn unread_by(all: &[Client]) -> u64 {
    let mut count = 0u64;
    for client in all {
        count = count.saturating_add(client.unread());
    }
    count
}

/// How much a client of two hundred calls has still to look at: before a crash, right after it, eight calls later, and a hundred more.
fn unread_around(alloc: Global) -> Result<[u64; 4], AllocError> {
    let mut tree = Tree::new(alloc, &[], COMMON)?;
    let mut seen = Seen::new();
    let mut all = clients_of(alloc, 7, Mix::Private, 1)?;
    steps(all.as_mut_slice(), &mut tree, &mut seen, 200)?;
    let before = unread_by(all.as_slice());
    for client in all.iter_mut() {
        client.new_era();
    }
    let after = unread_by(all.as_slice());
    steps(all.as_mut_slice(), &mut tree, &mut seen, 8)?;
    let soon = unread_by(all.as_slice());
    steps(all.as_mut_slice(), &mut tree, &mut seen, 100)?;
    Ok([before, after, soon, unread_by(all.as_slice())])
}

#[test]
fn what_was_known_is_looked_at_after_a_crash(rt: HostRuntime) -> Result<(), Fail> {
    let [before, after, soon, later] = unread_around(rt.alloc())?;
    assert!(rt; before == 0 && after > 8 && soon > 0 && later == 0);
    Ok(())
}
