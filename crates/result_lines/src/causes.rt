ghost use Rattle.std.specs.Prelude.{◌≡◌};
ghost use Rattle.result_lines.specs.Lines.{cause_name as printed};

use api_lines::TextCause;

/// Returns the printed name of a cause.
pub fn cause_name(cause: TextCause) -> &'static str
    ensures { result.now ≡ printed cause }
{
    match cause {
        TextCause::Long => "long",
        TextCause::Lines => "lines",
        TextCause::Json => "json",
        TextCause::Shape => "shape",
        TextCause::Id => "id",
        TextCause::Range => "range",
        TextCause::Half => "half",
        TextCause::Stranger => "stranger",
        TextCause::SecondCall => "second-call",
        TextCause::NoCall => "no-call",
        TextCause::Ended => "ended",
        TextCause::Full => "full",
        TextCause::ShardMoved => "shard-moved",
    }
}
