//! Which names have databases, and the refusals of the calls on them.

/// Of several refusals the first is the answer: of the name, of its database, and of the room.
pub(crate) const REFUSED_IN_ORDER: &str = r#"
# there is room for two databases
> allow two databases
> GET /_all_dbs
HTTP/1.1 200 OK, JSON of 3:
[]\n
> PUT /B
HTTP/1.1 400 Bad Request, JSON of 54:
{"error":"illegal_database_name","reason":"bad name"}\n
> GET /B
HTTP/1.1 400 Bad Request, JSON of 54:
{"error":"illegal_database_name","reason":"bad name"}\n
> DELETE /B
HTTP/1.1 400 Bad Request, JSON of 54:
{"error":"illegal_database_name","reason":"bad name"}\n
> GET /b
HTTP/1.1 404 Not Found, JSON of 58:
{"error":"not_found","reason":"Database does not exist."}\n
> DELETE /b
HTTP/1.1 404 Not Found, JSON of 58:
{"error":"not_found","reason":"Database does not exist."}\n
> PUT /b
HTTP/1.1 201 Created, JSON of 12:
{"ok":true}\n
> GET /b
HTTP/1.1 200 OK, JSON of 93:
{"db_name":"b","doc_count":0,"doc_del_count":0,"update_seq":"0-1","instance_start_time":"0"}\n
> PUT /b
HTTP/1.1 412 Precondition Failed, JSON of 95:
{"error":"file_exists","reason":"The database could not be created, the file already exists."}\n
> PUT /a%2F$(1)+_-
HTTP/1.1 201 Created, JSON of 12:
{"ok":true}\n
> GET /_all_dbs
HTTP/1.1 200 OK, JSON of 18:
["a/$(1)+_-","b"]\n
> PUT /B
HTTP/1.1 400 Bad Request, JSON of 54:
{"error":"illegal_database_name","reason":"bad name"}\n
> PUT /b
HTTP/1.1 412 Precondition Failed, JSON of 95:
{"error":"file_exists","reason":"The database could not be created, the file already exists."}\n
> PUT /c
HTTP/1.1 503 Service Unavailable, JSON of 61:
{"error":"too_many_databases","reason":"too many databases"}\n
> GET /c
HTTP/1.1 404 Not Found, JSON of 58:
{"error":"not_found","reason":"Database does not exist."}\n
> DELETE /b
HTTP/1.1 200 OK, JSON of 12:
{"ok":true}\n
> DELETE /b
HTTP/1.1 404 Not Found, JSON of 58:
{"error":"not_found","reason":"Database does not exist."}\n
> PUT /c
HTTP/1.1 201 Created, JSON of 12:
{"ok":true}\n
> GET /_all_dbs
HTTP/1.1 200 OK, JSON of 18:
["a/$(1)+_-","c"]\n
"#;

/// Where the log is full, no database is made or removed, for lack of a note. But an edit is stored.
pub(crate) const FULL_LOG: &str = r#"
# there is room for one note
> allow one edit
> PUT /a
HTTP/1.1 201 Created, JSON of 12:
{"ok":true}\n
> PUT /a
HTTP/1.1 412 Precondition Failed, JSON of 95:
{"error":"file_exists","reason":"The database could not be created, the file already exists."}\n
> PUT /b
HTTP/1.1 503 Service Unavailable, JSON of 51:
{"error":"sequence_full","reason":"sequence full"}\n
> GET /b
HTTP/1.1 404 Not Found, JSON of 58:
{"error":"not_found","reason":"Database does not exist."}\n
> DELETE /a
HTTP/1.1 503 Service Unavailable, JSON of 51:
{"error":"sequence_full","reason":"sequence full"}\n
> GET /a
HTTP/1.1 200 OK, JSON of 93:
{"db_name":"a","doc_count":0,"doc_del_count":0,"update_seq":"0-1","instance_start_time":"0"}\n
> GET /_all_dbs
HTTP/1.1 200 OK, JSON of 6:
["a"]\n
> POST /a/_bulk_docs {"docs":[{"_id":"a","_rev":"1-a"}],"new_edits":false}
HTTP/1.1 503 Service Unavailable, JSON of 51:
{"error":"sequence_full","reason":"sequence full"}\n
> GET /a
HTTP/1.1 200 OK, JSON of 93:
{"db_name":"a","doc_count":1,"doc_del_count":0,"update_seq":"1-1","instance_start_time":"0"}\n
"#;

/// The refusal of a full log comes after every other refusal.
pub(crate) const BEFORE_A_FULL_LOG: &str = r#"
# there is room for one name, and for one note
> allow one database
> allow one edit
> PUT /a
HTTP/1.1 201 Created, JSON of 12:
{"ok":true}\n
> PUT /B
HTTP/1.1 400 Bad Request, JSON of 54:
{"error":"illegal_database_name","reason":"bad name"}\n
> PUT /a
HTTP/1.1 412 Precondition Failed, JSON of 95:
{"error":"file_exists","reason":"The database could not be created, the file already exists."}\n
> PUT /b
HTTP/1.1 503 Service Unavailable, JSON of 61:
{"error":"too_many_databases","reason":"too many databases"}\n
> DELETE /b
HTTP/1.1 404 Not Found, JSON of 58:
{"error":"not_found","reason":"Database does not exist."}\n
> DELETE /a
HTTP/1.1 503 Service Unavailable, JSON of 51:
{"error":"sequence_full","reason":"sequence full"}\n
> GET /_all_dbs
HTTP/1.1 200 OK, JSON of 6:
["a"]\n
"#;

/// A creation that is refused is not counted among the lives.
pub(crate) const LIVES: &str = r#"
# a life is the number of a creation among those that succeeded, from 1
> allow one database
> PUT /d
HTTP/1.1 201 Created, JSON of 12:
{"ok":true}\n
> PUT /d
HTTP/1.1 412 Precondition Failed, JSON of 95:
{"error":"file_exists","reason":"The database could not be created, the file already exists."}\n
> PUT /D
HTTP/1.1 400 Bad Request, JSON of 54:
{"error":"illegal_database_name","reason":"bad name"}\n
> PUT /e
HTTP/1.1 503 Service Unavailable, JSON of 61:
{"error":"too_many_databases","reason":"too many databases"}\n
> GET /d
HTTP/1.1 200 OK, JSON of 93:
{"db_name":"d","doc_count":0,"doc_del_count":0,"update_seq":"0-1","instance_start_time":"0"}\n
> DELETE /d
HTTP/1.1 200 OK, JSON of 12:
{"ok":true}\n
> PUT /d
HTTP/1.1 201 Created, JSON of 12:
{"ok":true}\n
> PUT /d
HTTP/1.1 412 Precondition Failed, JSON of 95:
{"error":"file_exists","reason":"The database could not be created, the file already exists."}\n
> PUT /D
HTTP/1.1 400 Bad Request, JSON of 54:
{"error":"illegal_database_name","reason":"bad name"}\n
> PUT /e
HTTP/1.1 503 Service Unavailable, JSON of 61:
{"error":"too_many_databases","reason":"too many databases"}\n
> GET /d
HTTP/1.1 200 OK, JSON of 93:
{"db_name":"d","doc_count":0,"doc_del_count":0,"update_seq":"0-2","instance_start_time":"0"}\n
> DELETE /d
HTTP/1.1 200 OK, JSON of 12:
{"ok":true}\n
> PUT /d
HTTP/1.1 201 Created, JSON of 12:
{"ok":true}\n
> PUT /d
HTTP/1.1 412 Precondition Failed, JSON of 95:
{"error":"file_exists","reason":"The database could not be created, the file already exists."}\n
> PUT /D
HTTP/1.1 400 Bad Request, JSON of 54:
{"error":"illegal_database_name","reason":"bad name"}\n
> PUT /e
HTTP/1.1 503 Service Unavailable, JSON of 61:
{"error":"too_many_databases","reason":"too many databases"}\n
> GET /d
HTTP/1.1 200 OK, JSON of 93:
{"db_name":"d","doc_count":0,"doc_del_count":0,"update_seq":"0-3","instance_start_time":"0"}\n
> DELETE /d
HTTP/1.1 200 OK, JSON of 12:
{"ok":true}\n
> PUT /d
HTTP/1.1 201 Created, JSON of 12:
{"ok":true}\n
> PUT /d
HTTP/1.1 412 Precondition Failed, JSON of 95:
{"error":"file_exists","reason":"The database could not be created, the file already exists."}\n
> PUT /D
HTTP/1.1 400 Bad Request, JSON of 54:
{"error":"illegal_database_name","reason":"bad name"}\n
> PUT /e
HTTP/1.1 503 Service Unavailable, JSON of 61:
{"error":"too_many_databases","reason":"too many databases"}\n
> GET /d
HTTP/1.1 200 OK, JSON of 93:
{"db_name":"d","doc_count":0,"doc_del_count":0,"update_seq":"0-4","instance_start_time":"0"}\n
"#;

/// Which texts are names, their order, and a name that is given again.
pub(crate) const NAMES: &str = r#"
# names are listed in the order of their bytes
> PUT /b
HTTP/1.1 201 Created, JSON of 12:
{"ok":true}\n
> PUT /a_
HTTP/1.1 201 Created, JSON of 12:
{"ok":true}\n
> PUT /ab
HTTP/1.1 201 Created, JSON of 12:
{"ok":true}\n
> PUT /a-
HTTP/1.1 201 Created, JSON of 12:
{"ok":true}\n
> PUT /a
HTTP/1.1 201 Created, JSON of 12:
{"ok":true}\n
> PUT /a0
HTTP/1.1 201 Created, JSON of 12:
{"ok":true}\n
> GET /_all_dbs
HTTP/1.1 200 OK, JSON of 30:
["a","a-","a0","a_","ab","b"]\n
# a new database of a removed name is another
> PUT /a
HTTP/1.1 201 Created, JSON of 12:
{"ok":true}\n
> DELETE /a
HTTP/1.1 200 OK, JSON of 12:
{"ok":true}\n
> GET /a
HTTP/1.1 404 Not Found, JSON of 58:
{"error":"not_found","reason":"Database does not exist."}\n
> PUT /a
HTTP/1.1 201 Created, JSON of 12:
{"ok":true}\n
> GET /a
HTTP/1.1 200 OK, JSON of 93:
{"db_name":"a","doc_count":0,"doc_del_count":0,"update_seq":"0-2","instance_start_time":"0"}\n
# texts that are names
> PUT /a
HTTP/1.1 201 Created, JSON of 12:
{"ok":true}\n
> PUT /z09
HTTP/1.1 201 Created, JSON of 12:
{"ok":true}\n
> PUT /a_$()+%2F-
HTTP/1.1 201 Created, JSON of 12:
{"ok":true}\n
> PUT /aaaaaaaaaaaaaaaaaaaaaaaaaaaaaaaaaaaaaaaaaaaaaaaaaaaaaaaaaaaaaaaaaaaaaaaaaaaaaaaaaaaaaaaaaaaaaaaaaaaaaaaaaaaaaaaaaaaaaaaaaaaaaaaaaaaaaaaaaaaaaaaaaaaaaaaaaaaaaaaaaaaaaaaaaaaaaaaaaaaaaaaaaaaaaaaaaaaaaaaaaaaaaaaaaaaaaaaaaaaaaaaaaaaaaaaaaaaaaa
HTTP/1.1 201 Created, JSON of 12:
{"ok":true}\n
> GET /_all_dbs
HTTP/1.1 200 OK, JSON of 264:
["a","a_$()+/-","aaaaaaaaaaaaaaaaaaaaaaaaaaaaaaaaaaaaaaaaaaaaaaaaaaaaaaaaaaaaaaaaaaaaaaaaaaaaaaaaaaaaaaaaaaaaaaaaaaaaaaaaaaaaaaaaaaaaaaaaaaaaaaaaaaaaaaaaaaaaaaaaaaaaaaaaaaaaaaaaaaaaaaaaaaaaaaaaaaaaaaaaaaaaaaaaaaaaaaaaaaaaaaaaaaaaaaaaaaaaaaaaaaaaaaaaaaaaaa","z09"]\n
# texts that are none
> PUT /A
HTTP/1.1 400 Bad Request, JSON of 54:
{"error":"illegal_database_name","reason":"bad name"}\n
> PUT /0
HTTP/1.1 400 Bad Request, JSON of 54:
{"error":"illegal_database_name","reason":"bad name"}\n
> PUT /_a
HTTP/1.1 400 Bad Request, JSON of 54:
{"error":"illegal_database_name","reason":"bad name"}\n
> PUT /%2Fa
HTTP/1.1 400 Bad Request, JSON of 54:
{"error":"illegal_database_name","reason":"bad name"}\n
> PUT /aB
HTTP/1.1 400 Bad Request, JSON of 54:
{"error":"illegal_database_name","reason":"bad name"}\n
> PUT /a.b
HTTP/1.1 400 Bad Request, JSON of 54:
{"error":"illegal_database_name","reason":"bad name"}\n
> PUT /a%20b
HTTP/1.1 400 Bad Request, JSON of 54:
{"error":"illegal_database_name","reason":"bad name"}\n
> PUT /a%C3%A9
HTTP/1.1 400 Bad Request, JSON of 54:
{"error":"illegal_database_name","reason":"bad name"}\n
> PUT /aaaaaaaaaaaaaaaaaaaaaaaaaaaaaaaaaaaaaaaaaaaaaaaaaaaaaaaaaaaaaaaaaaaaaaaaaaaaaaaaaaaaaaaaaaaaaaaaaaaaaaaaaaaaaaaaaaaaaaaaaaaaaaaaaaaaaaaaaaaaaaaaaaaaaaaaaaaaaaaaaaaaaaaaaaaaaaaaaaaaaaaaaaaaaaaaaaaaaaaaaaaaaaaaaaaaaaaaaaaaaaaaaaaaaaaaaaaaaaa
HTTP/1.1 400 Bad Request, JSON of 54:
{"error":"illegal_database_name","reason":"bad name"}\n
> GET /_all_dbs
HTTP/1.1 200 OK, JSON of 3:
[]\n
"#;
