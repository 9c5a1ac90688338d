ghost use Rattle.std.specs.Prelude.{◌≡◌, ◌-◌, ◌^◌, min, length, Err};
ghost use Rattle.media_types.specs.Cause.{HasCause, failed};
ghost use Rattle.media_base.specs.Names as names;
ghost use Rattle.media_base.specs.Transfer.{Gathers, Sends};
ghost use Rattle.reply_text.specs.ReplyText.{reply_text, reply_line};

use crate::out::{Count, Out};
use crate::part::{Field, Part, put_object};
use media_base::{Answer, Code, Failed, Gather, ImportStatus, Refusal, Reply, Sink, Unmet};

/// Writes the reply's text, without a line feed. A text of up to 4,096 bytes goes out in one write, and
/// a longer one in pieces of up to as many. It takes no memory.
pub fn write_reply<W: Sink>(reply: &Reply, sink: &mut W) -> Result<(), Failed>
    ensures cause { HasCause (W.faults sink.old) (W.faults sink.new) failed result }
    ensures sends { Sends (W.taken sink.old) (W.taken sink.new) (reply_text reply.now) result }
{
    let mut gather = Gather::new();
    put_reply(reply, &mut gather, sink)?;
    gather.flush(sink)
}

/// Puts the reply's text and a line feed behind what is gathered. It takes no memory.
pub fn put_reply_line<W: Sink>(
    reply: &Reply,
    gather: &mut Gather,
    sink: &mut W,
) -> Result<(), Failed>
    ensures cause { HasCause (W.faults sink.old) (W.faults sink.new) failed result }
    ensures gathers { Gathers (W.taken sink.old) gather.old (W.taken sink.new) gather.new (reply_line reply.now) result }
{
    put_line(reply, gather, sink)
}

/// How many bytes the reply's text has, or the greatest `u64` where it has more. It takes no memory.
pub fn reply_len(reply: &Reply) -> u64
    ensures { result ≡ min (length (reply_text reply.now)) (2 ^ 64 - 1) }
{
    let mut count = Count(0);
    let _ = put_reply(reply, &mut count, &mut ());
    count.0
}

fn put_line<W, O: Out<W>>(reply: &Reply, out: &mut O, sink: &mut W) -> Result<(), Failed>
    ensures { O.Puts out.old sink.old out.new sink.new (reply_line reply.now) result }
{
    put_reply(reply, out, sink)?;
    out.put(b"\n", sink)
}

#[tactic(auto, unfolding(crate::specs::ReplyText::reply_text))]
fn put_reply<W, O: Out<W>>(reply: &Reply, out: &mut O, sink: &mut W) -> Result<(), Failed>
    ensures { O.Puts out.old sink.old out.new sink.new (reply_text reply.now) result }
{
    let mut put = |fields: &[Field<'_>]| put_object(fields, out, sink);
    match reply {
        Ok(Answer::Imported(found)) => put(&[
            ("file", Part::Number(u64::from(found.file.0))),
            ("status", Part::Number(status_number(found.status))),
        ]),
        Ok(Answer::Changed(changed)) => put(&[("changed", Part::Flag(*changed))]),
        Ok(Answer::Decided(decision)) => put(&[("decision", Part::Number(u64::from(decision.0)))]),
        Ok(Answer::Undone(decision)) => put(&[("undone", Part::Number(u64::from(decision.0)))]),
        Ok(Answer::Relations(relations)) => put(&[
            ("king", Part::Number(u64::from(relations.king.0))),
            ("members", Part::Files(relations.members.as_slice())),
            ("alternates", Part::Files(relations.alternates.as_slice())),
            ("not_related", Part::Files(relations.not_related.as_slice())),
        ]),
        Ok(Answer::Decision { decision, undone }) => put(&[
            ("code", Part::Number(code_number(decision.code))),
            ("a", Part::Number(u64::from(decision.a.0))),
            ("b", Part::Number(u64::from(decision.b.0))),
            ("undone", Part::Flag(*undone)),
            ("rule", Part::Files(&[])),
        ]),
        Ok(Answer::Pairs(pairs)) => put(&[("pairs", Part::Pairs(pairs.as_slice()))]),
        Ok(Answer::PairCount(count)) => put(&[("count", Part::Number(*count))]),
        Ok(Answer::Distance(distance)) => put(&[(
            "distance",
            Part::Number(u64::from(distance.bits())),
        )]),
        Ok(Answer::Searched(counts)) => put(&[
            ("searched", Part::Number(counts.searched)),
            ("left", Part::Number(counts.left)),
        ]),
        Ok(Answer::Queues(queues)) => put(&[
            ("search", Part::Number(queues.search)),
            ("display", Part::Number(queues.display)),
        ]),
        Ok(Answer::Rebalanced) => put(&[("done", Part::Flag(true))]),
        Ok(Answer::Service(service)) => put(&[("service", Part::Number(u64::from(service.0)))]),
        Ok(Answer::Mapped(mapped)) => put(&[
            ("tag", Part::Number(u64::from(mapped.tag.0))),
            ("changed", Part::Flag(mapped.changed)),
        ]),
        Ok(Answer::Mappings(found)) => put(&[
            ("current", Part::Tags(found.current.as_slice())),
            ("pending", Part::Tags(found.pending.as_slice())),
            ("deleted", Part::Tags(found.deleted.as_slice())),
        ]),
        Ok(Answer::Sibling(pair)) => put(&[
            ("bad", Part::Number(u64::from(pair.first.0))),
            ("good", Part::Number(u64::from(pair.second.0))),
        ]),
        Ok(Answer::Parent(pair)) => put(&[
            ("child", Part::Number(u64::from(pair.first.0))),
            ("parent", Part::Number(u64::from(pair.second.0))),
        ]),
        Ok(Answer::Ideal(found)) => put(&[
            ("ideal", Part::Text(found.ideal.as_str())),
            ("ancestors", Part::Tags(found.ancestors.as_slice())),
        ]),
        Err(refusal) => put_refusal(refusal, out, sink),
    }
}

#[tactic(auto, unfolding(crate::specs::ReplyText::reply_text))]
fn put_refusal<W, O: Out<W>>(refusal: &Refusal, out: &mut O, sink: &mut W) -> Result<(), Failed>
    ensures { O.Puts out.old sink.old out.new sink.new (reply_text (Err refusal.now)) result }
{
    let error = ("error", Part::Text(refusal.text()));
    match refusal {
        Refusal::NotARequest(field) => {
            put_object(&[error, ("field", Part::Text(field.text()))], out, sink)
        }
        Refusal::Unmet(Unmet::PairKnown(good)) => {
            put_object(&[error, ("good", Part::Text(good.as_str()))], out, sink)
        }
        Refusal::Unmet(Unmet::TooManyImplied { service, tag }) => put_object(
            &[
                error,
                ("service", Part::Number(u64::from(service.0))),
                ("tag", Part::Text(tag.as_str())),
            ],
            out,
            sink,
        ),
        _ => put_object(&[error], out, sink),
    }
}

fn code_number(code: Code) -> u64
    ensures { result ≡ names.code_number code }
{
    match code {
        Code::NotRelated => 1,
        Code::Same => 2,
        Code::Alternates => 3,
        Code::Better => 4,
    }
}

fn status_number(status: ImportStatus) -> u64
    ensures { result ≡ names.import_number status }
{
    match status {
        ImportStatus::New => 1,
        ImportStatus::Known => 2,
        ImportStatus::Deleted => 3,
    }
}
