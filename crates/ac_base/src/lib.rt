//! The numbers, tables and shapes that every layer of the coder stands on:
//! fixed point, the cosines and the window of the transforms, the tables of the bit allocation, the rates and sizes of frames,
//! and the shape of a frame with the spans and side bits of its channels.
#![tactic(auto)]

mod allocation_tables;
mod coefficients;
mod cosine_table;
mod costs;
mod memory;
mod numbers;
mod profile;
mod rates;
mod runs;
mod shapes;
mod side;
mod sizes;
mod spans;
mod window_table;

pub use allocation_tables::{BANDS, BINS, band_of, band_start, baptab, hearing, latab};
pub use coefficients::Coefs;
pub use cosine_table::{QUARTER, cosine, cosines, quarter};
pub use costs::cost_laws;
pub use memory::NoMemory;
pub use numbers::{Fix, add_product, dot, isqrt};
pub use profile::{CPLFLEAK, CPLSLEAK, DBPBCOD, FDCYCOD, FGAINCOD, FLOORCOD, SDCYCOD, SGAINCOD};
pub use rates::{is_rate, rate, rate_code};
pub use runs::{Run, run_laws};
pub use shapes::Shape;
pub use side::{side_bits, side_bits_law};
pub use sizes::{
    LEAST_WORDS, MOST_WORDS, Part, Parts, TAIL_BITS, code_words, frame_words, front_words, rooms,
};
pub use spans::{
    Lead, Span, coupled_span, coupling_span, coupling_subbands, free_span, low_span, rematrix_bands,
};
pub use window_table::window;
