//! How an actor stands: what it has open.
ghost use Rattle.std.specs.Prelude.{◌≡◌, ◌<◌, ℕ, ◌==◌, if◌then◌else◌, List, slice_index_or};
ghost use Rattle.s2_state.specs.Journals.{stand_after, idle};

use s2_model::What;

/// The number of actors that may have a transaction open, 1 to 16, and one place before them.
pub(crate) const ACTORS: usize = 17;

/// Whether a transaction that writes is open, and the pin of one that reads.
#[derive(Clone, Copy, Debug)]
pub(crate) struct Stand {
    pub(crate) running: bool,
    pub(crate) pin: Option<u64>,
}

/// Nothing is open.
pub(crate) const IDLE: Stand = Stand {
    running: false,
    pin: None,
};

impl Stand {
    // The stand after an entry of the actor's own.
    fn after(self, what: &What, time: u64) -> Stand
        ensures { result ≡ stand_after what.now time self }
    {
        let Stand { running, pin } = self;
        match what {
            What::Begin => Stand { running: true, pin },
            What::Commit => Stand {
                running: false,
                pin,
            },
            What::Rollback => Stand {
                running: false,
                pin,
            },
            What::Pin => Stand {
                running,
                pin: Some(time),
            },
            What::Unpin => Stand { running, pin: None },
            _ => self,
        }
    }
}

/// The stands after an entry of an actor.
pub(crate) fn note(stands: &mut [Stand; ACTORS], actor: u8, what: &What, time: u64)
    ensures { (k : ℕ) → k < 17 → slice_index_or stands.new k idle
        ≡ (if k == actor then stand_after what.now time (slice_index_or stands.old k idle) else slice_index_or stands.old k idle) }
{
    let place = actor as usize;
    if place < ACTORS {
        stands[place] = stands[place].after(what, time);
    }
}
