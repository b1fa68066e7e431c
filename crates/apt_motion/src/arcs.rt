//! Arcs that are to be divided, and what they are divided into.

ghost use Rattle.std.specs.Prelude.{◌≡◌, not};
ghost use Rattle.apt_motion.specs.Divided.{IsDivided, is_filled};

use apt_arc::{Arc, bound, chords};
use apt_plane::Pt;
use apt_records::Vertices;
use std::alloc::{AllocError, Global};
use std::marker::Model;

/// An arc that is to be divided, and the height of its vertices.
#[derive(Drop)]
pub(crate) struct Round {
    pub arc: Arc,
    pub z: i64,
}

impl Model for Round {
    ghost use Rattle.apt_arc.specs.Ranges.{IsArc};
    ghost use Rattle.apt_motion.specs.Drafts.{ArcAt};

    ghost Value = { ArcAt };

    ghost view = { λ r. record { arc = r.arc; z = r.z } };

    ghost invariant = { λ r. IsArc r.arc };
}

/// The vertices of an arc, none before it is divided. Clauses see their list.
#[derive(Drop)]
pub(crate) struct Cut {
    z: i64,
    points: Vec<Pt>,
}

impl Model for Cut {
    ghost use Rattle.std.specs.Prelude.{List, map};
    ghost use Rattle.apt_records.specs.declared.record.Position.{Position};
    ghost use Rattle.apt_records.specs.Vertices.{at_height};

    ghost Value = { List Position };

    ghost view = { λ c. map (at_height c.z) c.points.items };
}

impl Cut {
    /// None yet, and room for those of an arc.
    pub fn with_room(alloc: Global, round: &Round) -> Result<Cut, AllocError> {
        let points = Vec::with_capacity(alloc, bound(&round.arc) as usize)?;
        Ok(Cut { z: round.z, points })
    }

    /// The vertices of an arc; none where memory is lacking.
    pub fn divide(&mut self, round: &Round)
        ensures { IsDivided round.now self.new }
    {
        self.z = round.z;
        self.points.clear();
        // The list is as before where memory is lacking.
        let _ = chords(&round.arc, u64::MAX, &mut self.points);
    }

    pub fn is_empty(&self) -> bool
        ensures { result ≡ not (is_filled self.now) }
    {
        self.points.is_empty()
    }

    pub fn vertices(self) -> Vertices
        ensures { result ≡ self }
    {
        Vertices::level(self.z, self.points)
    }
}
