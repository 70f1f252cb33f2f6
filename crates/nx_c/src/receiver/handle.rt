//! A receiver in the caller's memory, which is a pointer to what it has where it is open.

ghost use Rattle.std.specs.Prelude.{◌≡◌, None, Some, MatchOption, Option, is_some};
ghost use Rattle.nx_c.specs.Handle.{handle_owns, open_coded};
ghost use Rattle.nx_c.specs.declared.receiver.open_receiver.OpenReceiver.{OpenReceiver as WhatIsOpen};

use crate::receiver::loose::Loose;
use crate::receiver::open_receiver::OpenReceiver;
use std::alloc::Global;
use std::marker::Model;
use std::mem::replace;
use std::ptr::null_mut;

/// A receiver in the caller's memory: one pointer, which is null where the receiver is closed.
///
/// It owns what the receiver has then. It is no `Drop`, so no function of this crate can lose one
/// that is open.
#[repr(C)]
pub struct NxReceiver {
    at: *mut (),
    pub ghost value: { Option WhatIsOpen } by { open_coded },
}

impl Model for NxReceiver {
    ghost also_owns = { λ receiver. handle_owns receiver.at receiver.value };
}

impl NxReceiver {
    /// A receiver that is closed.
    fn closed() -> NxReceiver
        ensures { result.value ≡ None }
    {
        NxReceiver { at: null_mut() }
    }

    /// The receiver that has this.
    fn of_loose(loose: Loose<OpenReceiver, Global>) -> NxReceiver
        ensures { result.value ≡ Some loose.value }
    {
        let Loose { at, alloc: _ } = loose;
        NxReceiver { at: at as *mut () }
    }

    /// What the receiver has; nothing where it is closed.
    fn into_loose(self, alloc: Global) -> Option<Loose<OpenReceiver, Global>>
        ensures { MatchOption result (self.value ≡ None) (λ loose. self.value ≡ Some loose.value) }
    {
        let NxReceiver { at } = self;
        if at.is_null() {
            return None;
        }
        Some(Loose {
            at: at as *mut OpenReceiver,
            alloc,
        })
    }

    /// Takes what the receiver has, which is closed then; nothing where it was closed.
    pub(crate) fn take(&mut self, alloc: Global) -> Option<Box<OpenReceiver>>
        ensures opened { MatchOption result (self.old.value ≡ None)
            (λ opened. self.old.value ≡ Some opened.value) }
        ensures closed { self.new.value ≡ None }
    {
        let loose = replace(self, NxReceiver::closed()).into_loose(alloc)?;
        Some(loose.into_box())
    }

    /// Has the receiver hold this from here on. What it held before is given back.
    pub(crate) fn hold(&mut self, opened: Box<OpenReceiver>, alloc: Global)
        ensures { self.new.value ≡ Some opened.value }
    {
        let receiver = NxReceiver::of_loose(Loose::of(opened));
        if let Some(loose) = replace(self, receiver).into_loose(alloc) {
            drop(loose.into_box());
        }
    }

    /// Whether the receiver is open.
    pub(crate) fn is_open(&mut self, alloc: Global) -> bool
        ensures open { result ≡ is_some self.old.value }
        ensures unchanged { self.new.value ≡ self.old.value }
    {
        match self.take(alloc) {
            Some(opened) => {
                self.hold(opened, alloc);
                true
            }
            None => false,
        }
    }
}
