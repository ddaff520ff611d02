//! What a trace would cost on this memory, on pages of any size.
#![tactic(auto)]

mod cost_bars;
mod eager_pages;
mod heard_stores;
mod laws;
mod line_labels;
mod output;
mod page_cells;
mod page_map;
mod page_row;
mod page_stream;
mod page_svg;
mod page_table;
mod page_tallies;
mod page_traffic;
mod page_uses;
mod page_watch;
mod paged_history;
pub mod pages_command;
mod pages_picture;
mod pages_style;
mod processor_set;
mod text_table;
mod top_pages;
mod touched_pages;
mod whole_copies;

pub use eager_pages::EagerTraffic;
pub use laws::{fetched_law, one_fetched_law};
pub use page_cells::PageCell;
pub use page_row::PageRow;
pub use page_stream::{PageFault, PageStream};
pub use page_traffic::PageTraffic;
pub use page_uses::PageUse;
pub use page_watch::{LabelWait, PageWatch};
pub use paged_history::{PagedFault, PagedHistory};
pub use processor_set::ProcessorSet;
pub use top_pages::TopPage;
