//! Opening, examining and marking.
ghost use Rattle.std.specs.Prelude.{◌≡◌};
ghost use Rattle.std.specs.Result.{result_err};
ghost use Rattle.bridge.specs.Answers.{Counted};
ghost use Rattle.bridge.specs.Codes.{judgement};
ghost use Rattle.listing.specs.Listing.{refused_by};

use crate::codes::packed;
use examination::examine;
use loading::kept::Kept;
use refusal::fault::Refusal;
use sheet::opening::open_sheet;

fn judge(bytes: &[u8]) -> Result<(), Refusal>
    ensures { result_err result ≡ refused_by bytes.now }
{
    let sheet = open_sheet(bytes)?;
    examine(&Kept::of(&sheet))?;
    Ok(())
}

/// 0, or why the sheet is refused.
pub(crate) fn verdict(bytes: &[u8]) -> u64
    ensures { result ≡ judgement (refused_by bytes.now) }
{
    match judge(bytes) {
        Ok(()) => 0,
        Err(refusal) => packed(refusal),
    }
}

/// How many instances are marked.
pub(crate) fn mark_count(bytes: &[u8]) -> u64
    ensures { Counted bytes.now result }
{
    match listing::judge(bytes) {
        Ok((_, marks)) => marks.total().into(),
        Err(refusal) => packed(refusal),
    }
}
