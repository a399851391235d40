//! The quotes and forms that are open, the innermost first.
ghost use Rattle.std.specs.Prelude.{◌≡◌, [], IfOk};
ghost use Rattle.pm_subst.specs.Tokens.{rule_of, frames_after, fresh_after, is_form};

use crate::kinds::{Frame, Kind, Mode, Rule};
use pm_bytes::Memory;
use std::alloc::Global;
use std::collections::VecDeque;
use std::marker::Model;

// As many forms may be nested.
const MOST_FORMS: usize = 32;

#[derive(Drop)]
pub struct Frames {
    items: VecDeque<Frame>,
}

impl Model for Frames {
    ghost use Rattle.std.specs.Prelude.{List};
    ghost use Rattle.pm_subst.specs.declared.kinds.Frame.{Frame};

    ghost Value = { List Frame };

    ghost view = { λ frames. frames.items.items };
}

fn is_form_frame(frame: Frame) -> bool
    ensures { result ≡ is_form frame }
{
    match frame {
        Frame::Quotes => false,
        Frame::Form => true,
        Frame::QuotedForm => true,
    }
}

impl Frames {
    pub fn new(alloc: Global) -> Frames
        ensures { result ≡ [] }
    {
        Frames {
            items: VecDeque::new(alloc),
        }
    }

    pub fn rule(&self, mode: Mode, fresh: bool) -> Rule
        ensures { result ≡ rule_of mode self.now fresh }
    {
        let forms = self
            .items
            .iter()
            .filter(|frame| is_form_frame(**frame))
            .count();
        let may_end = fresh && matches!(mode, Mode::Many);
        let may_open = forms < MOST_FORMS;
        match self.items.front() {
            None => Rule {
                quoted: matches!(mode, Mode::Quoted),
                ends_quotes: false,
                ends_form: false,
                may_end,
                may_open,
            },
            Some(frame) => Rule {
                quoted: !matches!(frame, Frame::Form),
                ends_quotes: matches!(frame, Frame::Quotes),
                ends_form: is_form_frame(*frame),
                may_end,
                may_open,
            },
        }
    }

    /// Goes past a front of this kind.
    pub fn pass(&mut self, kind: Kind, quoted: bool) -> Result<(), Memory>
        ensures { IfOk result (λ _. self.new ≡ frames_after kind quoted self.old) }
    {
        match kind {
            Kind::QuotesOpen => self.items.push_front(Frame::Quotes)?,
            Kind::FormOpen(_) => self.items.push_front(if quoted {
                Frame::QuotedForm
            } else {
                Frame::Form
            })?,
            Kind::QuotesClose | Kind::FormClose => {
                let _ = self.items.pop_front();
            }
            _ => {}
        }
        Ok(())
    }
}

/// Whether a word is fresh after a front of this kind.
pub fn fresh_behind(kind: Kind, fresh: bool) -> bool
    ensures { result ≡ fresh_after kind fresh }
{
    match kind {
        Kind::Space => true,
        Kind::Join => fresh,
        _ => false,
    }
}
