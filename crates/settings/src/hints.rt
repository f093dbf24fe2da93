//! What is wrong with a file of settings or of a site, and where: a line with the place and the
//! value as it is written, one with what is wanted, and one with the place of the other station if
//! two have one number.
//!
//! [`explain`] gives these lines for the fault of a file of settings, and [`explain_site`] for that
//! of a site's file. Of the stations of either file the first that is wrong is meant, or the first
//! that has an unknown key; the other station that has its number is the first before it that has.
//! What the lines say is shown by `checks/faults.py`, `checks/settings.py` and `checks/site.py`.
mod explaining;
mod file;
mod finding;
mod lines;
mod mending;
mod remarks;
mod stations;

pub use self::explaining::{explain, explain_site};
pub use self::remarks::{
    Remark, config_remarks, listen_remarks, live_remarks, site_remarks, stranger_remarks,
};
