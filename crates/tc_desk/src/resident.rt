//! A badge in a place that threads share.

ghost use Rattle.std.specs.Prelude.{◌≡◌};
ghost use base.Fml.{ftrue};

use atomic_table::Badge;
use std::marker::Model;

/// A badge that threads may share, since nothing can be read through a `&` to it.
pub(crate) struct ResidentBadge<V> {
    badge: Badge<V>,
}

impl<V> Model for ResidentBadge<V> {
    ghost also_owns = { λ _. ftrue };
}

impl<V> ResidentBadge<V> {
    pub(crate) fn new(badge: Badge<V>) -> ResidentBadge<V>
        ensures { result.badge ≡ badge }
    {
        ResidentBadge { badge }
    }

    pub(crate) fn into_badge(self) -> Badge<V>
        ensures { result ≡ self.badge }
    {
        let ResidentBadge { badge } = self;
        badge
    }
}

impl<V> Drop for ResidentBadge<V> {
    fn drop(self) {
        drop(self.into_badge());
    }
}

unsafe impl<V> Send for ResidentBadge<V> {}

unsafe impl<V> Sync for ResidentBadge<V> {}
