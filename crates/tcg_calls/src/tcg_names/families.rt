//! Objects whose names have a number.

ghost use Rattle.std.specs.Prelude.{◌≡◌, ◌++◌, ◌+◌, ◌≤◌, MatchOption, OnOk, IfOk, Some, None, option_map, string_bytes, codes, decimal};
ghost use Rattle.std.specs.List.{flat_map};
ghost use Rattle.tcg_calls.specs.Families.{member, names_of, number_of};
ghost use Rattle.tcg_calls.specs.Objects.{name_in, object_in, number_between, range_text, range_between, authority_families, range_families, number_making};

use sp_cells::names::tables;
use sp_cells::{ADMINS, RANGES, USERS, Uid};
use std::alloc::{AllocError, Global};
use std::fmt::Write;

/// A number, and the texts that it stands between.
#[derive(Clone, Copy, Debug)]
pub(crate) struct Between {
    pub(crate) before: &'static str,
    pub(crate) number: u8,
    pub(crate) behind: &'static str,
}

/// The name of a member of a family of authorities, of their PINs and of the ACEs of both.
#[tactic(auto, using(crate::proofs::tcg_names::Joins::names))]
pub(crate) fn authority_between(object: Uid) -> Option<Between>
    ensures { MatchOption result (name_in authority_families object ≡ None)
        (λ its. name_in authority_families object
        ≡ Some (number_between its.before.now its.behind.now its.number)) }
{
    if let Some(number) = object.admin_number() {
        Some(Between {
            before: "Admin",
            number,
            behind: "",
        })
    } else if let Some(number) = object.user_number() {
        Some(Between {
            before: "User",
            number,
            behind: "",
        })
    } else if let Some(number) = object.admin_pin_number() {
        Some(Between {
            before: "C_PIN_Admin",
            number,
            behind: "",
        })
    } else if let Some(number) = object.user_pin_number() {
        Some(Between {
            before: "C_PIN_User",
            number,
            behind: "",
        })
    } else if let Some(number) = object.user_ace_number() {
        Some(Between {
            before: "ACE_C_PIN_User",
            number,
            behind: "_Set_PIN",
        })
    } else if let Some(number) = object.user_common_name_ace_number() {
        Some(Between {
            before: "ACE_User",
            number,
            behind: "_Set_CommonName",
        })
    } else {
        None
    }
}

/// The name of a range, of its key, or of an ACE of these.
#[tactic(auto, using(crate::proofs::tcg_names::Joins::names))]
pub(crate) fn range_between(object: Uid) -> Option<Between>
    ensures { MatchOption result (name_in range_families object ≡ None)
        (λ its. name_in range_families object
        ≡ Some (range_between its.before.now its.behind.now its.number)) }
{
    if let Some(number) = object.range_number() {
        Some(Between {
            before: "Locking_",
            number,
            behind: "",
        })
    } else if let Some(number) = object.key_number() {
        Some(Between {
            before: "K_AES_256_",
            number,
            behind: "_Key",
        })
    } else if let Some(number) = object.gen_key_ace_number() {
        Some(Between {
            before: "ACE_K_AES_256_",
            number,
            behind: "_GenKey",
        })
    } else if let Some(number) = object.range_get_ace_number() {
        Some(Between {
            before: "ACE_Locking_",
            number,
            behind: "_Get_RangeStartToActiveKey",
        })
    } else if let Some(number) = object.read_locked_ace_number() {
        Some(Between {
            before: "ACE_Locking_",
            number,
            behind: "_Set_RdLocked",
        })
    } else if let Some(number) = object.write_locked_ace_number() {
        Some(Between {
            before: "ACE_Locking_",
            number,
            behind: "_Set_WrLocked",
        })
    } else {
        None
    }
}

impl Between {
    /// The number between its texts.
    pub(crate) fn number_text(&self, alloc: Global) -> Result<String, AllocError>
        ensures { IfOk result (λ text. string_bytes text
            ≡ number_between self.now.before.now self.now.behind.now self.now.number) }
    {
        let mut text = String::new(alloc);
        text.push_str(self.before)?;
        write!(text, "{}", self.number)?;
        text.push_str(self.behind)?;
        Ok(text)
    }

    /// The range between its texts; 0 is the global range.
    pub(crate) fn range_text(&self, alloc: Global) -> Result<String, AllocError>
        ensures { IfOk result (λ text. string_bytes text
            ≡ range_between self.now.before.now self.now.behind.now self.now.number) }
    {
        let mut text = String::new(alloc);
        text.push_str(self.before)?;
        if self.number == 0 {
            text.push_str("GlobalRange")?;
        } else {
            write!(text, "Range{}", self.number)?;
        }
        text.push_str(self.behind)?;
        Ok(text)
    }
}

/// The number from 1 to the last that makes the name between these texts.
#[tactic(auto, using(crate::proofs::tcg_names::Numbers::found, crate::proofs::tcg_names::Numbers::ended))]
pub(crate) fn number_named(
    alloc: Global,
    before: &'static str,
    behind: &'static str,
    last: u8,
    name: &str,
) -> Result<Option<u8>, AllocError>
    ensures { IfOk result (λ number. number
        ≡ number_making (number_between before.now behind.now) 1 last name.now) }
{
    for number in 1..=last {
        let text = Between {
            before,
            number,
            behind,
        }
        .number_text(alloc)?;
        if text.as_str() == name {
            return Ok(Some(number));
        }
    }
    Ok(None)
}

/// The number of the range that makes the name between these texts.
#[tactic(auto, using(crate::proofs::tcg_names::Numbers::found, crate::proofs::tcg_names::Numbers::ended))]
pub(crate) fn range_named(
    alloc: Global,
    before: &'static str,
    behind: &'static str,
    name: &str,
) -> Result<Option<u8>, AllocError>
    ensures { IfOk result (λ number. number
        ≡ number_making (range_between before.now behind.now) 0 (RANGES + 1) name.now) }
{
    for number in 0..=RANGES {
        let text = Between {
            before,
            number,
            behind,
        }
        .range_text(alloc)?;
        if text.as_str() == name {
            return Ok(Some(number));
        }
    }
    Ok(None)
}

/// The numbers that the members of a family have.
pub(crate) enum Numbers {
    /// From 1 up to this one.
    UpTo(u8),
    /// Those of the ranges, the global one being 0.
    OfRanges,
}

/// Objects that have a number: the table whose rows they are, what their names end in where the number is 0, the object
/// of the number 0 where its name is none of these, the texts that the number stands between, and the numbers that
/// there are.
pub(crate) struct Family {
    pub(crate) table: u16,
    pub(crate) number: u32,
    pub(crate) zero: Option<Uid>,
    pub(crate) before: &'static str,
    pub(crate) behind: &'static str,
    pub(crate) numbers: Numbers,
}

/// The families of authorities, of their PINs and of the ACEs of both, and those of the ranges.
static FAMILIES: [Family; 12] = [
    Family {
        table: tables::AUTHORITY as u16,
        number: 0x1_0000,
        zero: None,
        before: "Admin",
        behind: "",
        numbers: Numbers::UpTo(ADMINS),
    },
    Family {
        table: tables::AUTHORITY as u16,
        number: 0x3_0000,
        zero: None,
        before: "User",
        behind: "",
        numbers: Numbers::UpTo(USERS),
    },
    Family {
        table: tables::C_PIN as u16,
        number: 0x1_0000,
        zero: None,
        before: "C_PIN_Admin",
        behind: "",
        numbers: Numbers::UpTo(ADMINS),
    },
    Family {
        table: tables::C_PIN as u16,
        number: 0x3_0000,
        zero: None,
        before: "C_PIN_User",
        behind: "",
        numbers: Numbers::UpTo(USERS),
    },
    Family {
        table: tables::ACE as u16,
        number: 0x3_a800,
        zero: None,
        before: "ACE_C_PIN_User",
        behind: "_Set_PIN",
        numbers: Numbers::UpTo(USERS),
    },
    Family {
        table: tables::ACE as u16,
        number: 0x4_4000,
        zero: None,
        before: "ACE_User",
        behind: "_Set_CommonName",
        numbers: Numbers::UpTo(USERS),
    },
    Family {
        table: tables::LOCKING as u16,
        number: 0x3_0000,
        zero: Some(Uid::GLOBAL_RANGE),
        before: "Locking_",
        behind: "",
        numbers: Numbers::OfRanges,
    },
    Family {
        table: tables::K_AES_256 as u16,
        number: 0x3_0000,
        zero: Some(Uid::GLOBAL_KEY),
        before: "K_AES_256_",
        behind: "_Key",
        numbers: Numbers::OfRanges,
    },
    Family {
        table: tables::ACE as u16,
        number: 0x3_b800,
        zero: None,
        before: "ACE_K_AES_256_",
        behind: "_GenKey",
        numbers: Numbers::OfRanges,
    },
    Family {
        table: tables::ACE as u16,
        number: 0x3_d000,
        zero: None,
        before: "ACE_Locking_",
        behind: "_Get_RangeStartToActiveKey",
        numbers: Numbers::OfRanges,
    },
    Family {
        table: tables::ACE as u16,
        number: 0x3_e000,
        zero: None,
        before: "ACE_Locking_",
        behind: "_Set_RdLocked",
        numbers: Numbers::OfRanges,
    },
    Family {
        table: tables::ACE as u16,
        number: 0x3_e800,
        zero: None,
        before: "ACE_Locking_",
        behind: "_Set_WrLocked",
        numbers: Numbers::OfRanges,
    },
];

/// The families of authorities, of their PINs and of the ACEs of both, and those of the ranges.
fn families() -> &'static [Family]
    ensures { flat_map names_of result.now ≡ authority_families ++ range_families }
{
    &FAMILIES
}

impl Family {
    /// The object of a number.
    fn object(&self, number: u8) -> Uid
        ensures { result ≡ member self.now number }
    {
        let following = Uid(
            u64::from(self.table) * 0x1_0000_0000 + u64::from(self.number) + u64::from(number),
        );
        if number == 0 {
            self.zero.unwrap_or(following)
        } else {
            following
        }
    }

    /// The number of the member that has this name.
    fn number(&self, alloc: Global, name: &str) -> Result<Option<u8>, AllocError>
        ensures { IfOk result (λ number. number ≡ number_of self.now name.now) }
    {
        match self.numbers {
            Numbers::UpTo(last) => number_named(alloc, self.before, self.behind, last, name),
            Numbers::OfRanges => range_named(alloc, self.before, self.behind, name),
        }
    }

    /// The member that has this name.
    #[tactic(auto, using(crate::proofs::tcg_names::FamilyLemmas::members))]
    fn named(&self, alloc: Global, name: &str) -> Result<Option<Uid>, AllocError>
        ensures { IfOk result (λ object. object ≡ object_in (names_of self.now) name.now) }
    {
        match self.number(alloc, name)? {
            None => Ok(None),
            Some(number) => Ok(Some(self.object(number))),
        }
    }
}

/// The member of a family that has this name.
fn named_among(alloc: Global, families: &[Family], name: &str) -> Result<Option<Uid>, AllocError>
    ensures { IfOk result
        (λ object. object ≡ object_in (flat_map names_of families.now) name.now) }
{
    for family in families {
        if let Some(object) = family.named(alloc, name)? {
            return Ok(Some(object));
        }
    }
    Ok(None)
}

/// The member of any family that has this name.
pub(crate) fn member_named(alloc: Global, name: &str) -> Result<Option<Uid>, AllocError>
    ensures { IfOk result
        (λ object. object ≡ object_in (authority_families ++ range_families) name.now) }
{
    let object = named_among(alloc, families(), name)?;
    Ok(object)
}
