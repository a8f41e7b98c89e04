// The desk sends answers, and gives the lines that they write.
ghost use Rattle.std.specs.Prelude.{◌≡◌, ◌++◌, ◌∷◌, [], IfOk, IsErr, OnErr, string_bytes};
ghost use Rattle.tickets.specs.Answers.{IsPlain, answer_of};
ghost use Rattle.admit.specs.Calls.{verdict_answers};
ghost use Rattle.tickets.specs.declared.answer.Body.TheVariants.{Read as ReadBody, Write as WriteBody};
ghost use Rattle.file_calls.specs.PartSteps.{IsPlainVerdict};
ghost use Rattle.file_calls.specs.Part.{send_result};
ghost use Rattle.file_calls.specs.Terms.{closed_commit_body};

use crate::hull::ClosedHull;
use crate::reply::reply_text;
use admit::Verdict;
use append_store::AppendFile;
use file_cell::FileCell;
use gw_model::status::NFS3ERR_IO;
use range_map::PendingMap;
use std::alloc::{AllocError, Global};
use tickets::{Answer, Body, ReplyDesk, Sent, Ticket};

/// The answer to a WRITE that is refused (RFC 1813 section 3.3.7).
pub fn not_written(ticket: Ticket, status: u32) -> Answer
    ensures ticket { result.ticket ≡ ticket }
    ensures body { result.body ≡ WriteBody status 0 0 }
{
    Answer {
        ticket,
        body: Body::Write {
            status,
            count: 0,
            committed: 0,
        },
    }
}

/// The answer to a READ (RFC 1813 section 3.3.6).
pub fn read_answer(ticket: Ticket, status: u32, eof: bool, bytes: Vec<u8>) -> Answer
    ensures ticket { result.ticket ≡ ticket }
    ensures body { result.body ≡ ReadBody status eof bytes }
{
    Answer {
        ticket,
        body: Body::Read { status, eof, bytes },
    }
}

/// The answer to a COMMIT of a closed file (RFC 1813 section 3.3.21).
pub fn closed_answer(ticket: Ticket, lost: Option<ClosedHull>, limit: u64) -> Answer
    ensures answer { answer_of result ≡ record { ticket = ticket.number; body = closed_commit_body lost limit } }
    ensures plain { IsPlain result.body }
{
    match lost {
        Some(lost) if lost.bars(limit) => Answer::not_committed(ticket, NFS3ERR_IO),
        _ => Answer::committed(ticket),
    }
}

/// Sends an answer, and gives what it writes. Takes memory; the ticket waits no more where it is refused too.
pub fn send_one(alloc: Global, desk: &mut ReplyDesk, answer: Answer) -> Result<String, AllocError>
    requires plain { IsPlain answer.body }
    ensures desk { desk.new ≡ (send_result desk.old (answer_of answer ∷ [])).desk }
    ensures last { desk.new.last ≡ desk.old.last }
    ensures text { IfOk result (λ text. string_bytes text ≡ (send_result desk.old (answer_of answer ∷ [])).text) }
{
    match desk.send(answer) {
        Sent::Reply { conn, xid, body } => reply_text(alloc, conn, xid, &body),
        Sent::Cancelled => Ok(String::new(alloc)),
    }
}

// Sends one answer more behind what was written.
fn send_more(
    alloc: Global,
    desk: &mut ReplyDesk,
    answer: Answer,
    text: Result<String, AllocError>,
) -> Result<String, AllocError>
    requires plain { IsPlain answer.body }
    ensures desk { desk.new ≡ (send_result desk.old (answer_of answer ∷ [])).desk }
    ensures last { desk.new.last ≡ desk.old.last }
    ensures text { IfOk result (λ all. IfOk text (λ before.
        string_bytes all ≡ string_bytes before ++ (send_result desk.old (answer_of answer ∷ [])).text)) }
    ensures err { OnErr text (IsErr result) }
{
    let line = send_one(alloc, desk, answer);
    let mut text = text?;
    text.push_str(line?.as_str())?;
    Ok(text)
}

/// Sends the answers that a step left in the cell, behind what was written. Takes memory; where that is refused all are sent
/// all the same.
pub fn send_left<F: AppendFile, M: PendingMap>(
    alloc: Global,
    desk: &mut ReplyDesk,
    cell: &mut FileCell<F, M>,
    text: Result<String, AllocError>,
) -> Result<String, AllocError>
    ensures none_left { cell.new ≡ record cell.old { left = [] } }
    ensures last { desk.new.last ≡ desk.old.last }
    ensures desk { desk.new ≡ (send_result desk.old cell.old.left).desk }
    ensures text { IfOk result (λ all. IfOk text (λ before.
        string_bytes all ≡ string_bytes before ++ (send_result desk.old cell.old.left).text)) }
    ensures err { OnErr text (IsErr result) }
{
    let mut text = text;
    while let Some(answer) = cell.next_answer() {
        text = send_more(alloc, desk, answer, text);
    }
    text
}

/// Sends what a request of an open file was answered.
pub fn send_verdict(
    alloc: Global,
    desk: &mut ReplyDesk,
    verdict: Verdict,
) -> Result<String, AllocError>
    requires plain { IsPlainVerdict verdict }
    ensures desk { desk.new ≡ (send_result desk.old (verdict_answers verdict)).desk }
    ensures last { desk.new.last ≡ desk.old.last }
    ensures text { IfOk result (λ text. string_bytes text ≡ (send_result desk.old (verdict_answers verdict)).text) }
{
    match verdict {
        Verdict::Reply(answer) => send_one(alloc, desk, answer),
        Verdict::Held => Ok(String::new(alloc)),
        Verdict::Dropped(ticket) => {
            desk.drop_ticket(ticket);
            Ok(String::new(alloc))
        }
        Verdict::NoMemory(ticket) => {
            let body = Body::SystemErr;
            send_one(alloc, desk, Answer { ticket, body })
        }
    }
}
