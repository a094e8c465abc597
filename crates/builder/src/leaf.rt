// The leaf case of the type matcher, by the rule of its pair.
ghost use Rattle.std.specs.Prelude.{◌≡◌, ◌+◌, ◌*◌, ◌^◌, ◌≤◌, ◌<◌, length};
ghost use Rattle.layout.specs.Limits.{longest};
ghost use Rattle.layout.specs.code.Answers.{leaf_at, SpanIn};
ghost use Rattle.layout.specs.code.Stands.{TypeAt};
ghost use Rattle.rules.specs.code.Answers.{verdict_of};
ghost use Rattle.rules.specs.Pairs.{pair_rule};
ghost use Rattle.builder.specs.code.Answers.{Ruled};
ghost use Rattle.builder.specs.code.Bundles.{TypesAt, LeafStands, AttachedLeaf};

use crate::answer::Made;
use crate::build::{Build, Types};
use crate::parts::{LeafPart, leaf_part};
use crate::write::{put_cast, put_position};
use layout::columns::Position;
use layout::cursor::Cursor;
use layout::edition::Edition;
use layout::types::LeafType;
use rules::outcome::{Outcome, mismatch_number};
use rules::pair::leaf_type_pair;
use rules::policy::Policy;

// The rule of two leaf types, each with its zone in its own bytes.
pub fn leaf_rule(
    policy: Policy,
    incoming: &[u8],
    l: LeafType,
    target: &[u8],
    u: LeafType,
) -> Outcome
    requires { SpanIn incoming.now l.zone × SpanIn target.now u.zone }
    ensures { verdict_of result ≡ pair_rule policy (leaf_at incoming.now l) (leaf_at target.now u) }
{
    let a = l.leaf;
    let b = u.leaf;
    let i = l.zone.start;
    let j = u.zone.start;
    leaf_type_pair(
        policy,
        a,
        &incoming[i..i + l.zone.len],
        b,
        &target[j..j + u.zone.len],
    )
}

// What an outcome comes to: the bare position, a refusal, or a cast to the target type.
fn apply_outcome(
    outcome: Outcome,
    v: Edition,
    depth: u8,
    target: &[u8],
    b: Cursor,
    position: Position,
    out: &mut [u8],
    k: usize,
) -> Made
    requires type_at { TypeAt v depth target.now b.at }
    requires target_len_bound { (length target.now ≤ longest) × (k ≤ 65536 * b.at + 1) }
    ensures { Ruled (verdict_of outcome) v depth target.now b.at position out.old k result out.new }
{
    match outcome {
        Outcome::Untouched => {
            put_position(out, k, position);
            Made::Bare(position)
        }
        Outcome::Refused(m) => Made::Refused(mismatch_number(m)),
        Outcome::Cast(o) => Made::Built(put_cast(target, v, depth, b, position, o, out, k)),
    }
}

pub fn attach_leaf(
    build: Build,
    incoming: &[u8],
    target: &[u8],
    types: Types,
    u: LeafType,
    out: &mut [u8],
) -> Made
    requires types_at { TypesAt build types incoming.now target.now }
    requires target_len_bound { (length target.now ≤ longest) × (types.place.k ≤ 65536 * types.target.at + 1) }
    requires span_in { SpanIn target.now u.zone × LeafStands build types target.now u }
    ensures { AttachedLeaf build types types.place incoming.now target.now out.old result out.new }
{
    let LeafPart::Is(l) = leaf_part(incoming, types.incoming) else {
        return Made::Refused(24);
    };
    let outcome = leaf_rule(build.policy, incoming, l, target, u);
    let v = build.target;
    let place = types.place;
    apply_outcome(
        outcome,
        v,
        types.depth,
        target,
        types.target,
        place.position,
        out,
        place.k,
    )
}
