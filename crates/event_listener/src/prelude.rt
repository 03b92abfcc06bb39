//! The traits whose methods are called on notifications and on listeners. As `event-listener` 5.4.2.

pub use crate::into_notification::IntoNotification;
pub use crate::listener::Listener;
