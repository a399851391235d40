//! Each part of a mailbox is edited and given to a child of its own (formail(1), option -s with a program).
ghost use Rattle.std.specs.Prelude.{◌≡◌, ◌≤◌, [], IfOk, OnErr, map, length, vec_capacity};
ghost use Rattle.formail_split.specs.Children.{EachRan, edited_at};

use formail_edit::{Edits, edit_mail};
use pm_bytes::{Blob, Memory};
use pm_host::{Child, Command, Host};
use pm_pipe::{Fate, feed_child};
use std::alloc::Global;

// What formail writes of each part at a moment.
fn edited_parts(
    alloc: Global,
    parts: &[Blob],
    edits: &Edits,
    moment: i64,
) -> Result<Vec<Blob>, Memory>
    ensures { IfOk result (λ texts. texts.items ≡ map (edited_at moment edits.now) parts.now) }
{
    let mut texts = Vec::new(alloc);
    for part in parts {
        texts.push(edit_mail(alloc, part, edits, moment)?.join()?)?;
    }
    Ok(texts)
}

// Each text is given to a child of its own, and how that ended is put into `rans`, which has room for it.
fn feed_texts<H: Host>(host: &mut H, command: &Command, texts: &[Blob], rans: &mut Vec<Fate>)
    requires none { (H.told host.old).child ≡ Child.NoChild }
    requires empty { rans.old.items ≡ [] }
    requires space { length texts.now ≤ vec_capacity rans.old }
    ensures fed { EachRan command.now texts.now rans.new.items (H.told host.old) (H.told host.new) }
    ensures none { (H.told host.new).child ≡ Child.NoChild }
{
    for text in texts {
        let fate = feed_child(host, command, text.as_slice());
        rans.push_reserved(fate);
    }
}

/// Edits each part of a mailbox, and gives it to a child of its own, one after the other; after one that couldn't be
/// started or fed the next is still tried. `moment` is the date of a line `From ` to put in front, in seconds since
/// 1970, in UTC. There is one answer a part, in order, and no child runs afterwards. `Memory` is the only error, and
/// comes before the first child.
pub fn feed_parts<H: Host>(
    alloc: Global,
    host: &mut H,
    parts: &[Blob],
    edits: &Edits,
    moment: i64,
    command: &Command,
) -> Result<Vec<Fate>, Memory>
    requires { (H.told host.old).child ≡ Child.NoChild }
    ensures ok { IfOk result (λ rans. EachRan command.now (map (edited_at moment edits.now) parts.now) rans.items
        (H.told host.old) (H.told host.new)) }
    ensures memory { OnErr result (H.told host.new ≡ H.told host.old) }
    ensures none { (H.told host.new).child ≡ Child.NoChild }
{
    let texts = edited_parts(alloc, parts, edits, moment)?;
    let mut rans = Vec::with_capacity(alloc, texts.len())?;
    feed_texts(host, command, texts.as_slice(), &mut rans);
    Ok(rans)
}
