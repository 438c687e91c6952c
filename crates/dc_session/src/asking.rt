// What a confmodule has said of itself and asked for.
ghost use Rattle.std.specs.Prelude.{◌≡◌, ◌+◌};
ghost use Rattle.dc_session.specs.Asking.{nothing_asked, bar_at};
ghost use Rattle.dc_session.specs.Displays.{percent as percent_of};

use crate::name_set::NameSet;
use dc_text::Text;
use std::alloc::Global;

/// A progress bar: its bounds, and the place between them at which it is.
#[derive(Clone, Copy, Debug, PartialEq, Eq)]
pub struct Bar {
    pub min: u32,
    pub max: u32,
    pub place: u32,
}

impl Bar {
    /// The bar at this place, or at the bound beyond which it is.
    pub fn at(self, place: u64) -> Bar
        ensures { result ≡ bar_at self place }
    {
        let within = place.min(u64::from(self.max)).max(u64::from(self.min));
        Bar {
            place: within as u32,
            ..self
        }
    }

    /// How much of its way it is along, in whole percent, rounded down (debconf-devel(7), PROGRESS SET). All of it where there is no way.
    pub fn percent(self) -> u64
        ensures { result ≡ percent_of self }
    {
        if self.max <= self.min {
            return 100;
        }
        let along = u64::from(self.place.saturating_sub(self.min));
        along * 100 / u64::from(self.max - self.min)
    }

    /// The bar this much further, at most at its bound.
    pub fn further(self, number: u32) -> Bar
        ensures { result ≡ bar_at self (self.place + number) }
    {
        self.at(u64::from(self.place) + u64::from(number))
    }
}

/// What a confmodule has said of itself and asked for (debconf-devel(7)).
#[derive(Drop)]
pub struct Asking {
    /// Whether lines and replies are escaped, as one of its capabilities.
    pub escape: bool,
    /// Whether it can back up, as another.
    pub backup: bool,
    /// The title of what is shown.
    pub title: Text,
    /// The questions that the next GO asks, in the order of their first INPUT.
    pub prepared: NameSet,
    /// The questions that were asked, in the order of first asking.
    pub asked: NameSet,
    pub bar: Option<Bar>,
}

impl Asking {
    /// Nothing was said and nothing asked for.
    pub fn nothing(alloc: Global) -> Asking
        ensures { result ≡ nothing_asked }
    {
        Asking {
            escape: false,
            backup: false,
            title: Text::new(alloc),
            prepared: NameSet::new(alloc),
            asked: NameSet::new(alloc),
            bar: None,
        }
    }
}
