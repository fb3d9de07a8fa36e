//! The definitions on examples.
ghost use Rattle.step_codec.specs.Examples.{FormatOnExamples};

/// The format and the faults on payloads that are written out, as facts. Calling it does nothing.
pub fn format_on_examples()
    ensures { FormatOnExamples }
{}
