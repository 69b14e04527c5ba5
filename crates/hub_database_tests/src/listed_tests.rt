//! Feeds of listed documents over many others: their rows are found once and kept until a write.

/// Feeds of listed documents hand their rows.
///
/// The database has the documents 1 to 300, each at the sequence of its number. The feeds list every
/// fifteenth document and one that does not exist, or every hundredth, the last first.
pub(crate) const LISTED: &str = r#"
# a listed document that is edited goes behind the others, and one that comes goes behind that
> next times 300
> state
seq 300, length 300, life 6, stands
> open feed=continuous&filter=_doc_ids&doc_ids=["15","30","45","60","75","90","105","120","135","150","165","180","195","210","225","240","255","270","285","300","x"]
feed 0
> hand 0 times 3
Row 15/300 15 1-a
Row 30/300 30 1-a
Row 45/300 45 1-a
> merge {"_id":"90","_rev":"1-b"}
seq 301
> merge {"_id":"x","_rev":"1-b"}
seq 302
> hand 0 times 19
Row 60/302 60 1-a
Row 75/302 75 1-a
Row 105/302 105 1-a
Row 120/302 120 1-a
Row 135/302 135 1-a
Row 150/302 150 1-a
Row 165/302 165 1-a
Row 180/302 180 1-a
Row 195/302 195 1-a
Row 210/302 210 1-a
Row 225/302 225 1-a
Row 240/302 240 1-a
Row 255/302 255 1-a
Row 270/302 270 1-a
Row 285/302 285 1-a
Row 300/302 300 1-a
Row 301/302 90 1-b
Row 302/302 x 1-b
Nothing

# feeds of listed documents take turns: one keeps its rows, then the other
> next times 300
> state
seq 300, length 300, life 6, stands
> open filter=_doc_ids&doc_ids=["15","30","45","60","75","90","105","120","135","150","165","180","195","210","225","240","255","270","285","300","x"]
feed 0
> open filter=_doc_ids&doc_ids=["300","200","100","200"]
feed 1
> hand 0
Row 15/300 15 1-a
> hand 1
Row 100/300 100 1-a
> hand 0 times 2
Row 30/300 30 1-a
Row 45/300 45 1-a
> hand 1
Row 200/300 200 1-a
> hand 0
Row 60/300 60 1-a
> hand 1 times 3
Row 300/300 300 1-a
End 300, 0 pending
Gone
> hand 0
Row 75/300 75 1-a

# a feed whose rows are kept is finished, and one goes on in a database that is deleted
> next times 300
> state
seq 300, length 300, life 6, stands
> open feed=continuous&filter=_doc_ids&doc_ids=["15","30","45","60","75","90","105","120","135","150","165","180","195","210","225","240","255","270","285","300","x"]
feed 0
> hand 0 times 3
Row 15/300 15 1-a
Row 30/300 30 1-a
Row 45/300 45 1-a
> finish 0
> hand 0
Gone
> open filter=_doc_ids&doc_ids=["300","200","100","200"]
feed 1
> hand 1 times 2
Row 100/300 100 1-a
Row 200/300 200 1-a
> delete
> hand 1 times 2
End 200, 100 pending
Gone

# several rows of listed documents are handed at once, also behind edits of one that is due and of a new one
> next times 300
> state
seq 300, length 300, life 6, stands
> open feed=continuous&filter=_doc_ids&doc_ids=["300","200","100","x"]
feed 0
> open filter=_doc_ids&doc_ids=["300","200","100","200"]
feed 1
> items 0 1
Row 1
Row 100/300 100 1-a
> items 1 2
Row 2
Row 100/300 100 1-a
Row 200/300 200 1-a
> merge {"_id":"200","_rev":"1-b"}
seq 301
> merge {"_id":"x","_rev":"1-b"}
seq 302
> items 0 9
Nothing 3
Row 300/302 300 1-a
Row 301/302 200 1-b
Row 302/302 x 1-b
> items 1 9
End 2
Row 300/302 300 1-a
End 300, 2 pending
> items 1 9
Gone 0

# rows are kept up to the journal's end: a full list leaves the feed, and a write between moves a row
> next times 300
> state
seq 300, length 300, life 6, stands
> open feed=continuous&filter=_doc_ids&doc_ids=["300","299","298","297","20","10"]
feed 0
> hand 0 times 3
Row 10/300 10 1-a
Row 20/300 20 1-a
Row 297/300 297 1-a
> full 0 times 2
Full
Full
> hand 0
Row 298/300 298 1-a
> merge {"_id":"299","_rev":"1-b"}
seq 301
> hand 0 times 4
Row 300/301 300 1-a
Row 301/301 299 1-b
Nothing
Nothing
> merge {"_id":"10","_rev":"1-b"}
seq 302
> hand 0 times 3
Row 302/302 10 1-b
Nothing
Nothing

# feeds that begin at different places ask by turns for rows that are kept, also behind the last of them
> next times 300
> state
seq 300, length 300, life 6, stands
> open feed=continuous&filter=_doc_ids&doc_ids=["300","150","100"]
feed 0
> hand 0 times 5
Row 100/300 100 1-a
Row 150/300 150 1-a
Row 300/300 300 1-a
Nothing
Nothing
> open since=150&filter=_doc_ids&doc_ids=["100","140","200","210","250","300"]
feed 1
> full 1 times 3
Full
Full
Full
> hand 1 times 3
Row 200/300 200 1-a
Row 210/300 210 1-a
Row 250/300 250 1-a
> open feed=continuous&since=90&filter=_doc_ids&doc_ids=["95"]
feed 2
> full 2 times 2
Full
Full
> hand 2 times 2
Row 95/300 95 1-a
Nothing
> hand 1 times 3
Row 300/300 300 1-a
End 300, 0 pending
Gone
> open feed=continuous&since=20&filter=_doc_ids&doc_ids=["x","y"]
feed 3
> hand 3 times 3
Nothing
Nothing
Nothing
> merge {"_id":"y","_rev":"1-b"}
seq 301
> merge {"_id":"95","_rev":"1-b"}
seq 302
> hand 3 times 2
Row 301/302 y 1-b
Nothing
> hand 2 times 2
Row 302/302 95 1-b
Nothing

# a list as long as the edits ahead keeps its rows, and one that is longer than twice as long looks at each edit
> next times 300
> state
seq 300, length 300, life 6, stands
> open since=296&filter=_doc_ids&doc_ids=["300","299","297","2","1"]
feed 0
> open feed=continuous&since=298&filter=_doc_ids&doc_ids=["300","299","5","4","3","2","1"]
feed 1
> hand 0 times 2
Row 297/300 297 1-a
Row 299/300 299 1-a
> hand 1 times 3
Row 299/300 299 1-a
Row 300/300 300 1-a
Nothing
> hand 0 times 3
Row 300/300 300 1-a
End 300, 0 pending
Gone
> merge {"_id":"4","_rev":"1-b"}
seq 301
> hand 1 times 2
Row 301/301 4 1-b
Nothing
"#;
