// Names and zones stand in the incoming layout or in the plan.
ghost use Rattle.std.specs.Prelude.{◌≡◌};
ghost use Rattle.layout.specs.Bytes.{Bytes, same_bytes};
ghost use Rattle.layout.specs.code.Answers.{span_at, SpanIn};
ghost use Rattle.direct.specs.code.Places.{NameAt};

use forms::compare::same_text;
use layout::bytes::Span;

#[derive(Clone, Copy)]
pub enum Place {
    Incoming,
    Plan,
}

#[derive(Clone, Copy)]
pub struct Name {
    pub place: Place,
    pub span: Span,
}

pub fn named(place: Place, span: Span) -> Name
    ensures { result ≡ record { place = place; span = span } }
{
    Name { place, span }
}

pub fn same_name(incoming: &[u8], plan: &[u8], name: Name, target: &[u8], q: Span) -> bool
    requires name_at { (b : Bytes) × NameAt incoming.now plan.now name b }
    requires span_in { SpanIn target.now q }
    ensures { (b : Bytes) → NameAt incoming.now plan.now name b → result ≡ same_bytes b (span_at target.now q) }
{
    let place = name.place;
    let p = name.span;
    match place {
        Place::Incoming => same_text(incoming, p, target, q),
        Place::Plan => same_text(plan, p, target, q),
    }
}
