//! The columns.

/// The names of all columns, in their order. New ones come before the last two.
pub(crate) const COLUMNS: &str =
    "line,time,seconds,kind,what,tap,address,header,sent,heard,bytes,place,path,coins,posted,lost,counter,accepts,mask,order_id,count,life,life_before,life_after,paid,unpaid,sale_id,price,record_index,records,orders,epochs,available,reserved,paid_amount,sold,first_tap,last_tap,first_order,amount,owed,reason,open_order,last_id,way,list,number,category,serial,coin,value,check_kind,job,trial,premise,promise,longest,mean,rest,text";

/// What the values of a column are.
#[derive(Clone, Copy, PartialEq, Eq)]
pub(crate) enum ColumnKind {
    /// Numbers, in decimal.
    Number,
    Text,
    /// Coins or bills, each as its place, a slash and its path, joined by commas.
    Coins,
    /// Devices, each as its address, a slash and its check, joined by commas.
    Devices,
}

/// The columns whose values are texts, but for `text` itself.
const TEXTS: &str =
    "time,kind,what,sent,heard,bytes,mask,reason,category,coin,check_kind,job,trial,premise,promise,rest";

/// What the values of the column of this name are.
pub(crate) fn kind_of(name: &str) -> ColumnKind {
    match name {
        "coins" => ColumnKind::Coins,
        "list" => ColumnKind::Devices,
        _ if has_name(TEXTS, name) => ColumnKind::Text,
        _ => ColumnKind::Number,
    }
}

/// Whether a name stands among names that are joined by commas.
fn has_name(names: &str, wanted: &str) -> bool {
    names.split(',').any(|name| name == wanted)
}
