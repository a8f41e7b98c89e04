// What each query is answered.
ghost use Rattle.std.specs.Prelude.{◌≡◌, ◌≤◌, ℕ, Result, IfOk};
ghost use Rattle.std.specs.Option.{option_map};
ghost use Rattle.nfs_wire.specs.Results.{Refused as RefusedResults, Results, zeros_of};
ghost use Rattle.name_queries.specs.Outcomes.{IsAnswer, IsAnswerIf, IsOutcome, IsOutcomeIf, results_text};
ghost use Rattle.name_queries.specs.Queries.{object_outcome, query_outcome, query_results};

use crate::listing::{Page, readdir, readdirplus};
use crate::object::{access, getattr, lookup, readlink};
use crate::system::{fsinfo, fsstat, pathconf};
use gw_model::NoMemory;
use name_tree::{Refused, Tree};
use nfs_wire::{Args, Res, refusal, res_text};
use rpc_msg::Caller;
use std::alloc::Global;

/// What a procedure that only reads names and attributes answers a caller over a tree, whose file system has this number:
/// the results as they stand behind the reply's head (RFC 1813 sections 3.3.1, 3.3.3 to 3.3.5 and 3.3.16 to 3.3.20).
/// `None` for the arguments of another procedure. A handle that isn't one, or whose file isn't in the tree, is refused first;
/// then the first refusal of the procedure's order decides. `Err` is want of memory. The cost of a listing is that of the
/// entries it gives.
#[tactic(auto, unfolding(crate::specs::Queries::query_outcome))]
pub fn answer(
    alloc: Global,
    tree: &Tree,
    fsid: u64,
    caller: &Caller,
    args: &Args,
) -> Result<Option<Vec<u8>>, NoMemory>
    requires { caller.now.gid_count ≤ 16 }
    ensures { IfOk result (λ r. option_map (λ v. v.items) r ≡ results_text (query_results tree.now.tree fsid caller.now args.now)) }
{
    match outcome_text(alloc, tree, fsid, caller, args) {
        None => Ok(None),
        Some(Ok(text)) => Ok(Some(text)),
        Some(Err(Refused::Status(status))) => refusal_text(alloc, args, status),
        Some(Err(Refused::Memory)) => Err(NoMemory),
    }
}

// The text of a query's results, or why there is none. Takes memory.
#[tactic(auto, unfolding(crate::specs::Queries::query_outcome))]
fn outcome_text(
    alloc: Global,
    tree: &Tree,
    fsid: u64,
    caller: &Caller,
    args: &Args,
) -> Option<Result<Vec<u8>, Refused>>
    requires { caller.now.gid_count ≤ 16 }
    ensures { IsAnswerIf result (query_outcome tree.now.tree fsid caller.now args.now) }
{
    match args {
        Args::Readdir {
            handle,
            cookie,
            verifier,
            count,
        } => {
            let page = Page {
                handle: handle.as_slice(),
                cookie: *cookie,
                verifier,
            };
            Some(readdir(alloc, tree, fsid, caller, &page, *count))
        }
        Args::Readdirplus {
            handle,
            cookie,
            verifier,
            dircount,
            maxcount,
        } => {
            let page = Page {
                handle: handle.as_slice(),
                cookie: *cookie,
                verifier,
            };
            Some(readdirplus(alloc, tree, fsid, caller, &page, *dircount, *maxcount))
        }
        _ => match object_outcome(tree, fsid, caller, args) {
            Some(outcome) => Some(done_text(alloc, &outcome)),
            None => None,
        },
    }
}

// What is told of one file, or of the file system whole.
fn object_outcome<'a>(
    tree: &'a Tree,
    fsid: u64,
    caller: &Caller,
    args: &Args,
) -> Option<Result<Res<'a>, u32>>
    requires { caller.now.gid_count ≤ 16 }
    ensures { IsOutcomeIf result (object_outcome tree.now.tree fsid caller.now args.now) }
{
    match args {
        Args::Getattr { handle } => Some(getattr(tree, fsid, handle.as_slice())),
        Args::Lookup { place } => Some(lookup(tree, fsid, caller, place)),
        Args::Access { handle, mask } => {
            Some(access(tree, fsid, caller, handle.as_slice(), *mask))
        }
        Args::Readlink { handle } => Some(readlink(tree, fsid, handle.as_slice())),
        Args::Fsstat { handle } => Some(fsstat(tree, fsid, handle.as_slice())),
        Args::Fsinfo { handle } => Some(fsinfo(tree, fsid, handle.as_slice())),
        Args::Pathconf { handle } => Some(pathconf(tree, fsid, handle.as_slice())),
        _ => None,
    }
}

// The text of results that are there. Takes memory.
fn done_text(alloc: Global, outcome: &Result<Res<'_>, u32>) -> Result<Vec<u8>, Refused>
    ensures { (o : Result Results ℕ) → IsOutcome outcome.now o → IsAnswer result o }
{
    match outcome {
        Ok(res) => match res_text(alloc, res) {
            Ok(text) => Ok(text),
            Err(_) => Err(Refused::Memory),
        },
        Err(status) => Err(Refused::Status(*status)),
    }
}

// The text by which a call with these arguments is refused. Takes memory.
fn refusal_text(alloc: Global, args: &Args, status: u32) -> Result<Option<Vec<u8>>, NoMemory>
    ensures { IfOk result (λ r. option_map (λ v. v.items) r
        ≡ results_text (option_map (RefusedResults status) (zeros_of args.now))) }
{
    match refusal(args, status) {
        Some(res) => match res_text(alloc, &res) {
            Ok(text) => Ok(Some(text)),
            Err(_) => Err(NoMemory),
        },
        None => Ok(None),
    }
}
