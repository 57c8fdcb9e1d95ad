//! What holds of all reports. The function does nothing: its contract states a law.

ghost use Rattle.hs_tool.specs.Laws.{StatusesHaveCauses};

/// A report with the status of a refusal, a fault or words without a job has that cause.
pub fn statuses_have_causes()
    ensures { StatusesHaveCauses }
{}
