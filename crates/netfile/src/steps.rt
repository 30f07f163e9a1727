// One record after another.
ghost use Rattle.std.specs.Prelude.{◌≡◌, ◌<◌, Some, None, Err, MatchResult, OnOk};
ghost use Rattle.netfile.specs.Records.{mark_of, body_of};
ghost use Rattle.netfile.specs.Judging.{arc_judged, advanced, judged_next, Taken};

use super::arcs::arc_refusal;
use super::fields::{arc_ends, network_fields, query_fields, target_fields};
use super::records::next_record;
use super::{Kind, Limits, Progress, Reason, Record, Stage};
use measure::{Reversed, Sum, Then};
use sweeps::{MOST_NODES, Order, Refusal};

// Refuses an arc by the measure of the file's kind. Each arm names a type: a visitor over the kinds would need a trait, and a struct
// at each place that asks for one.
fn refusal_by_kind(progress: Progress, cells: usize, body: &[u8]) -> Result<(), Refusal>
    ensures verdict { let verdict = arc_judged progress.kind progress cells body.now in MatchResult result (λ _. verdict ≡ None) (λ why. verdict ≡ Some why) }
    ensures room { OnOk result (progress.count < 10000) }
{
    match progress.kind {
        Kind::Sum => arc_refusal::<Sum>(progress, cells, body),
        Kind::ReversedSum => arc_refusal::<Reversed<Sum>>(progress, cells, body),
        Kind::SumThenSum => arc_refusal::<Then<Sum, Sum>>(progress, cells, body),
        Kind::SumThenReversed => arc_refusal::<Then<Sum, Reversed<Sum>>>(progress, cells, body),
    }
}

// What this record makes of the progress, or what is wrong with its fields.
fn advance(progress: Progress, limits: Limits, item: Record) -> Result<Progress, Reason>
    ensures { result ≡ advanced limits progress (mark_of item.entry) (body_of item.entry) }
{
    match item {
        Record::Network(body) => {
            let (nodes, number) = network_fields(body);
            let kind = Kind::try_from(number).map_err(|_| Reason::BadField)?;
            if nodes == 0 || nodes > MOST_NODES {
                return Err(Reason::BadField);
            }
            if nodes > limits.nodes {
                return Err(Reason::TooManyNodes);
            }
            Ok(Progress {
                stage: Stage::Arcs,
                nodes,
                kind,
                ..Progress::start()
            })
        }
        Record::Arc(body) => {
            refusal_by_kind(progress, limits.arcs, body).map_err(Reason::Arc)?;
            let (_, last) = arc_ends(body);
            Ok(Progress {
                count: progress.count + 1,
                last,
                ..progress
            })
        }
        Record::Query(body) => {
            let (k, source) = query_fields(body);
            Order::new(k, source).map_err(|_| Reason::BadField)?;
            Ok(progress.at_stage(Stage::Queries))
        }
        Record::Target(body) => match target_fields(body) {
            (_, 0) => Err(Reason::BadField),
            _ => Ok(progress),
        },
        Record::End => Ok(progress.at_stage(Stage::Over)),
    }
}

// Takes the record at the head of these bytes.
pub fn step<'a>(
    progress: Progress,
    limits: Limits,
    rest: &'a [u8],
) -> Result<(Record<'a>, Progress), Reason>
    ensures { MatchResult result (λ t. Taken limits progress rest.now t.0 t.1) (λ why. judged_next limits progress rest.now ≡ Err why) }
{
    let item = next_record(rest, progress.stage, progress.kind)?;
    let after = advance(progress, limits, item)?;
    Ok((item, after))
}
