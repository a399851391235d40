//! Forms by the reasons for them.
ghost use Rattle.std.specs.Prelude.{◌≡◌, IfOk};
ghost use Rattle.check_moving.specs.Kept;

use crate::form::Form;
use pm_bytes::Memory;
use std::alloc::Global;

/// The forms for which there is a reason.
pub fn kept(alloc: Global, reasons: &[(bool, Form)]) -> Result<Vec<Form>, Memory>
    ensures { IfOk result (λ forms. forms.items ≡ Kept.kept reasons.now) }
{
    let mut forms = Vec::new(alloc);
    let mut rest = reasons;
    while let Some((one, after)) = rest.split_first() {
        if one.0 {
            forms.push(one.1)?;
        }
        rest = after;
    }
    Ok(forms)
}
