//! A run of a plan.

ghost use Rattle.std.specs.Prelude.{IfOk};
ghost use Rattle.certificate.specs.CertificateText.{IsCertificate};
ghost use Rattle.witness_check.specs.Witness.{IsWitness};
ghost use Rattle.book_laws.specs.ServedPlan.{EachServed};

use crate::client::{Client, SimServer};
use crate::end::RunEnd;
use journal_server::{Closed, JoinFault, OpenGate, Pass, Profile, Server, SimDevice, Start};
use plan_text::{Plan, Step};
use std::alloc::{AllocError, Global};
use std::sync::Wait;
use std::thread::{self, Threads};

/// The lanes that ask for something, each once.
fn lanes_of(alloc: Global, steps: &[Step]) -> Result<Vec<u32>, AllocError> {
    let mut lanes = Vec::new(alloc);
    for step in steps {
        if let Step::Lane(step) = step {
            let lane = step.lane;
            if !lanes.iter().any(|other| *other == lane) {
                lanes.push(lane)?;
            }
        }
    }
    Ok(lanes)
}

/// A client that asks for what the steps of its lane say, in order, up to the first call that isn't answered.
fn run_lane<R: Wait>(
    rt: &R,
    alloc: Global,
    server: &SimServer,
    steps: &[Step],
    lane: u32,
) -> Result<Pass, JoinFault> {
    let mut client = Client::new(alloc, server.join_lane(rt)?);
    for step in steps {
        if let Step::Lane(step) = step {
            if step.lane == lane && client.run(rt, server, &step.operation).is_err() {
                break;
            }
        }
    }
    Ok(client.into_pass())
}

/// Lets the lanes of these steps ask side by side. They leave when all are done.
fn go<R: Threads + Wait + Sync>(
    rt: &R,
    alloc: Global,
    server: &SimServer,
    steps: &[Step],
    passes: &mut Vec<Pass>,
) -> Result<(), RunEnd> {
    let lanes = lanes_of(alloc, steps)?;
    let ran = thread::map_indices(
        rt,
        alloc,
        lanes.len(),
        &|place| { run_lane(rt, alloc, server, steps, lanes[place]) },
    )?;
    for pass in ran {
        let mut pass = pass?;
        // A lane of an era that is over needn't be closed.
        drop(server.leave(rt, &mut pass));
        if passes.push(pass).is_err() {
            return Err(RunEnd::NoMemory);
        }
    }
    Ok(())
}

/// Crashes a server as these steps say.
fn crash<R: Wait>(rt: &R, server: &SimServer, steps: &[Step]) -> Result<(), RunEnd> {
    for step in steps {
        if let Step::Crash(extra) = step {
            if let Err(fault) = server.crash(rt, *extra) {
                return Err(RunEnd::Crash(fault));
            }
        }
    }
    Ok(())
}

/// Takes the steps of a plan. Between two `go` lines its crashes come ahead of what its lanes ask for.
fn run_steps<R: Threads + Wait + Sync>(
    rt: &R,
    alloc: Global,
    server: &SimServer,
    steps: &[Step],
    passes: &mut Vec<Pass>,
) -> Result<(), RunEnd> {
    for part in steps.split(|step| matches!(step, Step::Go)) {
        crash(rt, server, part)?;
        go(rt, alloc, server, part, passes)?;
    }
    Ok(())
}

/// Runs a plan over a server of its own that holds these objects at first, under this profile, and gives what the server recorded.
/// Each lane between two `go` lines is a client on a thread; all begin their transaction numbers at 1. A run takes at most 9,844
/// passes, since each 64 need a `go`.
pub fn run_plan_from<R: Threads + Wait + Sync>(
    rt: &R,
    alloc: Global,
    plan: &Plan,
    profile: Profile,
    start: Start,
) -> Result<Closed, RunEnd>
    // The certificate is a witness of the history, and each reply is as full as can be.
    ensures explains { IfOk result (λ closed. IsWitness closed.history.known closed.certificate) }
    ensures serves { IfOk result (λ closed. EachServed closed.history.known closed.certificate) }
    // It can be written as a text, and is read back.
    ensures written { IfOk result (λ closed. IsCertificate closed.certificate) }
{
    let mut passes = Vec::new(alloc);
    let device = SimDevice::new(alloc, plan.append_fault, plan.barrier_fault, None);
    let server = Server::new_from(alloc, OpenGate, device, profile, start)?;
    match run_steps(rt, alloc, &server, plan.steps.as_slice(), &mut passes) {
        Ok(()) => match server.close(passes) {
            Ok(closed) => Ok(closed),
            Err(fault) => Err(RunEnd::Close(fault)),
        },
        Err(end) => {
            drop(server.close(passes));
            Err(end)
        }
    }
}

/// Runs a plan as [`run_plan_from`], over a server that holds nothing at first, under the plain profile.
pub fn run_plan<R: Threads + Wait + Sync>(
    rt: &R,
    alloc: Global,
    plan: &Plan,
) -> Result<Closed, RunEnd>
    // The certificate is a witness of the history, and each reply is as full as can be.
    ensures explains { IfOk result (λ closed. IsWitness closed.history.known closed.certificate) }
    ensures serves { IfOk result (λ closed. EachServed closed.history.known closed.certificate) }
    // It can be written as a text, and is read back.
    ensures written { IfOk result (λ closed. IsCertificate closed.certificate) }
{
    run_plan_from(rt, alloc, plan, Profile::Plain, Start::empty(alloc))
}
