//! The profiles that a drive can be made with.

ghost use Rattle.std.specs.Prelude.{◌≡◌, true, false};
ghost use Rattle.basics.specs.Profiles.{has_field, has_opal};
ghost use Rattle.basics.specs.declared.profile.Profile.TheVariants.{Base, Field, Opal};

/// How much a drive knows. `Field` has all of `Base`, and what the drivers of operating systems and firmware ask for
/// beside it; `Opal` has all of `Field`.
#[derive(Clone, Copy, Debug, Default, PartialEq, Eq)]
pub enum Profile {
    /// What a script needs. A drive has it where none is named.
    #[default]
    Base,
    /// What unmodified drivers need.
    Field,
    /// What Opal SSC 2.01 makes mandatory.
    Opal,
}

impl Profile {
    /// Whether a drive of the profile has what one of `Field` has.
    pub fn has_field(self) -> bool
        ensures { result ≡ has_field self }
    {
        match self {
            Profile::Base => false,
            Profile::Field | Profile::Opal => true,
        }
    }

    /// Whether a drive of the profile has what one of `Opal` has.
    pub fn has_opal(self) -> bool
        ensures { result ≡ has_opal self }
    {
        match self {
            Profile::Base | Profile::Field => false,
            Profile::Opal => true,
        }
    }
}

/// What `Field` has beside `Base`, and `Opal` beside `Field`, each further profile has.
pub fn laws_of_profiles()
    ensures base { (has_field Base ≡ false) × (has_opal Base ≡ false) }
    ensures field { (has_field Field ≡ true) × (has_opal Field ≡ false) }
    ensures opal { (has_field Opal ≡ true) × (has_opal Opal ≡ true) }
{}
