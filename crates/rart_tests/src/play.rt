//! How trees and their statistics are compared.

pub use rart_test_trees::Tree;

pub mod replies {
    pub use rart_test_trees::{are_alike, have_same_stats, is_counted};
}
