//! What an act erases, behind a pointer.

use crate::erasure::Erasure;
use std::alloc::{AllocError, Global};
use std::boxed::Box;
use std::marker::Model;

/// The sectors that an act makes zeros, seen as their [`Erasure`]. Most acts make none, and an erasure is large: it
/// stands behind a pointer, and no sector takes no memory.
#[derive(Drop)]
pub struct Erased {
    named: Option<Box<Erasure>>,
}

impl Model for Erased {
    ghost use Rattle.std.specs.Prelude.{option_map, unwrap_or};
    ghost use Rattle.shadow_mbr.specs.declared.erasure.Erasure.{Erasure};
    ghost use Rattle.shadow_mbr.specs.Erasure.{no_sectors};

    ghost Value = { Erasure };

    ghost view = { λ a. unwrap_or (option_map (λ kept. kept.value) a.named) no_sectors };
}

impl Erased {
    ghost use Rattle.std.specs.Prelude.{◌≡◌, IfOk, IfSome, None};
    ghost use Rattle.shadow_mbr.specs.Erasure.{no_sectors};

    /// No sector.
    pub fn none() -> Erased
        ensures { result ≡ no_sectors }
    {
        Erased { named: None }
    }

    /// The sectors of an erasure.
    ///
    /// # Errors
    ///
    /// An allocation was refused.
    pub fn of(alloc: Global, erasure: Erasure) -> Result<Erased, AllocError>
        ensures { IfOk result (λ erased. erased ≡ erasure) }
    {
        let named = Box::new(alloc, erasure)?;
        Ok(Erased { named: Some(named) })
    }

    /// The erasure, or nothing where no sector is erased.
    pub(crate) fn erasure(&self) -> Option<&Erasure>
        ensures some { IfSome result (λ erasure. erasure.now ≡ self.now) }
        ensures none { result ≡ None → self.now ≡ no_sectors }
    {
        match &self.named {
            Some(erasure) => Some(&**erasure),
            None => None,
        }
    }
}
