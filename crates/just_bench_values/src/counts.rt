//! How many texts parameters may have.
ghost use Rattle.std.specs.Prelude.{◌≡◌, IfOk};
ghost use Rattle.just_names.specs.Texts.{texts};
ghost use Rattle.just_bench_values.specs.Counts.{count_fault};

use just_data::Text;
use just_parts::layers::{Fault, ParameterKind};
use std::alloc::{AllocError, Global};

/// Why a parameter of a kind may not have these texts: one that is not variadic has one.
pub fn count_fault(
    alloc: Global,
    kind: ParameterKind,
    group: &[&str],
) -> Result<Option<Fault>, AllocError>
    ensures { IfOk result (λ found. found ≡ count_fault kind (texts group.now)) }
{
    match group {
        [] | [_] => Ok(None),
        _ => {
            if kind.is_variadic() {
                return Ok(None);
            }
            Ok(Some(Fault {
                message: Text::from_str(alloc, "it takes one value, and is given more")?,
            }))
        }
    }
}
