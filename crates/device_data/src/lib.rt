//! What a drive says of itself, in the bytes that it gives.
#![tactic(auto)]

mod identify;
mod level0;
mod log_page;
mod pages;
mod protocols;
mod settings;
mod stack_reset;

pub use identify::{identity, identity_of, laws_of_identity};
pub use level0::{DISCOVERY_LENGTH, FIELD_DISCOVERY_LENGTH, discovery, field_discovery, has_owner};
pub use log_page::{Failure, error_log};
pub use pages::device_log;
pub use protocols::{
    CERTIFICATE_DATA_LENGTH, PROTOCOL_LIST_LENGTH, certificate_data, protocol_list,
};
pub use settings::Settings;
pub use stack_reset::{STACK_ANSWER_LENGTH, is_stack_reset, stack_answer};
