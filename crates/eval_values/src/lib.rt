//! What is done to the values of a program without running anything: operators and conversions, shapes and sizes, zeros,
//! parts, and stores.
#![tactic(auto)]

pub use fitting::{is_within_limit, sizes_fit, takes};
pub use path::Path;
pub use places::{field_in, found, index_in};
pub use shapes::{fits, fits_shape};
pub use sizes::sizes_in;
pub use stop::Stop;
pub use store::{assign, put, set};
pub use values::{convert, converted_back, linked, number_of, truth_of, unary, variable_of};
pub use zeros::{struct_zeros, zero_of, zero_of_shape};

mod fitting;
mod path;
mod places;
mod shapes;
mod sizes;
mod stop;
mod store;
mod values;
mod zeros;
