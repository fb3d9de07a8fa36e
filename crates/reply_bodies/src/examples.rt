ghost use Rattle.reply_bodies.specs.BodyRows.{BodyRows};

/// What the definitions say of replies that are written out, so that a reader can try them: arns, a sweep, a schedule in
/// short and with more, pages with and without a next one, an occurrence.
///
/// A theorem and no work: the call does nothing.
pub fn bodies_on_examples()
    ensures { BodyRows }
{}
