//! The forms that are known.
//!
//! A line `form=` begins a form: its name, and its mark. `list=` is a list of its findings, with
//! what gives their parts; `place=`, `labels=`, `edits=` and `notes=` are what is said beside
//! them. A line goes on after a backslash.

/// The forms, as [`crate::parse_forms`] reads them.
pub(crate) static TABLE: &str = "\
form=eslint mark=.:a mark=[].filePath:t mark=[].messages:a\n\
list=[].messages[] scope=eslint unit=utf16 file=^^filePath line=line column=column \
    end_line=endLine end_column=endColumn severity=severity code=ruleId message=message \
    help=suggestions[0].desc\n\
edits=fix unit=utf16 offset=range[0] end_offset=range[1] text=text only=text+\n\
form=gcc mark=.:a mark=[].kind:t mark=[].locations:a mark=[].message:t\n\
list=[] scope=gcc unit=bytes end=last severity=kind code=option message=message \
    url=option_url\n\
place=locations[0] unit=bytes end=last file=caret.file line=start.line|caret.line \
    column=start.byte-column|caret.byte-column end_line=finish.line|caret.line \
    end_column=finish.byte-column|caret.byte-column\n\
labels=locations[] unit=bytes end=last file=caret.file line=start.line|caret.line \
    column=start.byte-column|caret.byte-column end_line=finish.line|caret.line \
    end_column=finish.byte-column|caret.byte-column text=label\n\
labels=children[] unit=bytes end=last file=locations[0].caret.file \
    line=locations[0].caret.line column=locations[0].caret.byte-column \
    end_line=locations[0].finish.line end_column=locations[0].finish.byte-column text=message\n\
edits=fixits[] unit=bytes file=start.file line=start.line column=start.byte-column \
    end_line=next.line end_column=next.byte-column text=string only=string+\n\
form=pylint mark=.:a mark=[].message-id:t mark=[].symbol:t mark=[].path:t\n\
list=[] scope=pylint unit=bytes file=path line=line column0=column end_line=endLine \
    end_column=endColumn severity=type code=message-id message=message note=symbol\n\
form=ruff mark=.:a mark=[].filename:t mark=[].location:o mark=[].end_location:o\n\
list=[] scope=ruff file=filename line=location.row column=location.column \
    end_line=end_location.row end_column=end_location.column severity=severity code=code \
    message=message help=fix.message url=url\n\
edits=fix.edits[] line=location.row column=location.column end_line=end_location.row \
    end_column=end_location.column text=content only=content+\n\
form=shellcheck mark=.:a mark=[].file:t mark=[].endLine:n mark=[].code:n mark=[].level:t\n\
list=[] scope=shellcheck unit=cells8 file=file line=line column=column end_line=endLine \
    end_column=endColumn severity=level code=code message=message\n\
edits=fix.replacements[] unit=cells8 line=line column=column end_line=endLine \
    end_column=endColumn text=replacement only=replacement+\n\
form=hadolint mark=.:a mark=[].file:t mark=[].line:n mark=[].column:n mark=[].level:t \
    mark=[].code:t mark=[].endLine:-\n\
list=[] scope=hadolint file=file line=line column=column severity=level code=code \
    message=message\n\
form=stylelint mark=.:a mark=[].source:t0 mark=[].warnings:a mark=[].filePath:-\n\
list=[].warnings[] scope=stylelint unit=utf16 file=^^source line=line column=column \
    end_line=endLine end_column=endColumn severity=severity code=rule message=text\n\
list=[].invalidOptionWarnings[] scope=stylelint default=error file=^^source message=text\n\
list=[].deprecations[] scope=stylelint default=advice file=^^source message=text \
    url=reference\n\
list=[].parseErrors[] scope=stylelint unit=utf16 default=error file=^^source line=line \
    column=column message=text\n\
form=markdownlint mark=.:a mark=[].fileName:t mark=[].lineNumber:n mark=[].ruleNames:a\n\
list=[] scope=markdownlint unit=utf16 file=fileName line=lineNumber column=errorRange[0] \
    length=errorRange[1] severity=severity code=ruleNames[0] message=ruleDescription \
    note=errorDetail url=ruleInformation\n\
form=mdl mark=.:a mark=[].filename:t mark=[].line:n mark=[].rule:t mark=[].description:t\n\
list=[] scope=mdl default=warning file=filename line=line code=rule message=description \
    url=docs\n\
form=gitlab mark=.:a mark=[].description:t mark=[].location.path:t mark=[].fingerprint:t\n\
list=[] file=location.path line=location.lines.begin|location.positions.begin.line \
    column=location.positions.begin.column \
    end_line=location.lines.end|location.positions.end.line \
    end_column=location.positions.end.column severity=severity code=check_name \
    message=description note=content.body url=url\n\
form=jshint mark=.:a mark=[].file:t mark=[].error:o\n\
list=[] scope=jshint unit=utf16 as=letter file=file line=error.line column=error.character \
    severity=error.code level=w:warning,e:error,i:advice code=error.code message=error.reason\n\
form=hlint mark=.:a mark=[].file:t mark=[].hint:t mark=[].startLine:n\n\
list=[] scope=hlint file=file line=startLine column=startColumn end_line=endLine \
    end_column=endColumn severity=severity message=hint\n\
edits=. text=to only=to?\n\
notes=note[] text=.\n\
form=cfn-lint mark=.:a mark=[].Filename:t mark=[].Location:o mark=[].Rule:o\n\
list=[] scope=cfn-lint file=Filename line=Location.Start.LineNumber \
    column=Location.Start.ColumnNumber end_line=Location.End.LineNumber \
    end_column=Location.End.ColumnNumber severity=Level code=Rule.Id message=Message \
    url=Rule.Source\n\
form=ktlint mark=.:a mark=[].file:t mark=[].errors:a\n\
list=[].errors[] scope=ktlint unit=utf16 default=error file=^^file line=line column=column \
    code=rule message=message\n\
form=swiftlint mark=.:a mark=[].file:t0 mark=[].rule_id:t mark=[].reason:t\n\
list=[] scope=swiftlint file=file line=line column=character severity=severity code=rule_id \
    message=reason\n\
form=actionlint mark=.:a mark=[].filepath:t mark=[].kind:t mark=[].message:t \
    mark=[].locations:-\n\
list=[] scope=actionlint unit=bytes end=last default=error file=filepath line=line \
    column=column end_line=line end_column=end_column code=kind message=message\n\
form=psalm mark=.:a mark=[].file_path:t mark=[].line_from:n mark=[].type:t\n\
list=[] scope=psalm file=file_path line=line_from column=column_from end_line=line_to \
    end_column=column_to severity=severity code=type message=message url=link\n\
form=sqlfluff mark=.:a mark=[].filepath:t mark=[].violations:a\n\
list=[].violations[] scope=sqlfluff default=error file=^^filepath line=start_line_no|line_no \
    column=start_line_pos|line_pos end_line=end_line_no end_column=end_line_pos code=code \
    message=description\n\
form=eslint-metadata mark=.:o mark=results:a mark=metadata.rulesMeta:o\n\
list=results[].messages[] scope=eslint unit=utf16 file=^^filePath line=line column=column \
    end_line=endLine end_column=endColumn severity=severity code=ruleId message=message \
    help=suggestions[0].desc\n\
edits=fix unit=utf16 offset=range[0] end_offset=range[1] text=text only=text+\n\
form=pylint2 mark=.:o mark=messages:a mark=statistics:o\n\
list=messages[] scope=pylint unit=bytes file=path line=line column0=column end_line=endLine \
    end_column=endColumn severity=type code=messageId message=message note=symbol\n\
form=shellcheck1 mark=.:o mark=comments:a\n\
list=comments[] scope=shellcheck file=file line=line column=column end_line=endLine \
    end_column=endColumn severity=level code=code message=message\n\
edits=fix.replacements[] line=line column=column end_line=endLine end_column=endColumn \
    text=replacement only=replacement+\n\
form=rubocop mark=.:o mark=metadata:o mark=files:a mark=summary:o\n\
list=files[].offenses[] scope=rubocop end=last file=^^path \
    line=location.start_line|location.line column=location.start_column|location.column \
    end_line=location.last_line end_column=location.last_column length=location.length \
    severity=severity code=cop_name|linter_name message=message\n\
form=bandit mark=.:o mark=results:a mark=metrics:o mark=generated_at:t\n\
list=results[] scope=bandit unit=bytes file=filename line=line_number column0=col_offset \
    severity=issue_severity code=test_id message=issue_text note=test_name url=more_info\n\
list=errors[] scope=bandit default=error file=filename message=reason\n\
form=semgrep mark=.:o mark=results:a mark=errors:a mark=paths:o\n\
list=results[] scope=semgrep file=path line=start.line column=start.col end_line=end.line \
    end_column=end.col severity=extra.severity code=check_id message=extra.message \
    url=extra.metadata.source|extra.metadata.references[0]\n\
list=errors[] scope=semgrep file=path line=spans[0].start.line column=spans[0].start.col \
    end_line=spans[0].end.line end_column=spans[0].end.col severity=level code=type[0]|type \
    message=message|long_msg|short_msg\n\
form=golangci-lint mark=.:o mark=Issues:a0 mark=Stats:-\n\
list=Issues[] unit=bytes file=Pos.Filename line=Pos.Line column=Pos.Column severity=Severity \
    code=FromLinter message=Text\n\
list=Report.Warnings[] scope=golangci-lint default=warning code=Tag message=Text\n\
list=Report scope=golangci-lint default=error message=Error only=Error?\n\
form=gosec mark=.:o mark=Issues:a0 mark=Stats:o\n\
list=Issues[] scope=gosec unit=bytes file=file line=line column=column severity=severity \
    code=rule_id message=details url=cwe.url\n\
form=tflint mark=.:o mark=issues:a mark=errors:a\n\
list=issues[] scope=tflint file=range.filename line=range.start.line \
    column=range.start.column end_line=range.end.line end_column=range.end.column \
    severity=rule.severity code=rule.name message=message url=rule.link\n\
labels=callers[] file=filename line=start.line column=start.column end_line=end.line \
    end_column=end.column\n\
list=errors[] scope=tflint default=error file=range.filename line=range.start.line \
    column=range.start.column end_line=range.end.line end_column=range.end.column \
    severity=severity message=message\n\
form=sonar mark=.:o mark=issues:a mark=errors:- mark=issues[].filename:- \
    mark=issues[].check:-\n\
list=issues[] unit=utf16 file=primaryLocation.filePath \
    line=primaryLocation.textRange.startLine column0=primaryLocation.textRange.startColumn \
    end_line=primaryLocation.textRange.endLine end_column=primaryLocation.textRange.endColumn \
    severity=severity code=ruleId message=primaryLocation.message\n\
labels=secondaryLocations[] unit=utf16 file=filePath line=textRange.startLine \
    column0=textRange.startColumn end_line=textRange.endLine end_column=textRange.endColumn \
    text=message\n\
form=credo mark=.:o mark=issues:a mark=errors:- mark=issues[].check:t\n\
list=issues[] scope=credo file=filename line=line_no column=column end_line=line_no \
    end_column=column_end severity=category \
    level=warning:warning,readability:advice,design:advice,consistency:advice code=check \
    message=message\n\
form=pyright mark=.:o mark=generalDiagnostics:a\n\
list=generalDiagnostics[] scope=pyright unit=utf16 file=file line0=range.start.line \
    column0=range.start.character end_line=range.end.line end_column=range.end.character \
    severity=severity code=rule message=message\n\
form=biome mark=.:o mark=diagnostics:a mark=command:t\n\
list=diagnostics[] scope=biome unit=bytes file=location.path.file|location.path \
    offset=location.span[0] end_offset=location.span[1] severity=severity code=category \
    message=description|message only=location.span[0]+\n\
list=diagnostics[] scope=biome file=location.path.file|location.path line=location.start.line \
    column=location.start.column end_line=location.end.line end_column=location.end.column \
    severity=severity code=category message=description|message only=location.span[0]!\n\
form=oxlint mark=.:o mark=diagnostics:a mark=command:- mark=diagnostics[].labels:a\n\
list=diagnostics[] file=filename severity=severity code=code message=message help=help \
    note=note url=url\n\
place=labels[] unit=bytes file=^^filename length=span.length offset=span.offset text=label\n\
labels=labels[] unit=bytes file=^^filename length=span.length offset=span.offset text=label\n\
form=deno mark=.:o mark=diagnostics:a mark=command:- mark=diagnostics[].labels:- \
    mark=diagnostics[].problemMessage:- mark=errors:a\n\
list=diagnostics[] scope=deno default=error file=filename line=range.start.line \
    column0=range.start.col end_line=range.end.line end_column=range.end.col code=code \
    message=message help=hint\n\
list=errors[] scope=deno default=error file=file_path message=message\n\
form=dart mark=.:o mark=diagnostics:a mark=command:- mark=diagnostics[].labels:- \
    mark=diagnostics[].problemMessage:t mark=errors:-\n\
list=diagnostics[] scope=dart unit=utf16 file=location.file line=location.range.start.line \
    column=location.range.start.column end_line=location.range.end.line \
    end_column=location.range.end.column severity=severity code=code message=problemMessage \
    help=correctionMessage url=documentation\n\
form=rdjson mark=.:o mark=diagnostics:a mark=diagnostics[].filename:- mark=command:- \
    mark=diagnostics[].labels:- mark=diagnostics[].problemMessage:- mark=errors:-\n\
list=diagnostics[] unit=bytes file=location.path line=location.range.start.line \
    column=location.range.start.column end_line=location.range.end.line \
    end_column=location.range.end.column severity=severity|^^severity code=code.value \
    message=message url=code.url\n\
labels=related_locations[] unit=bytes file=location.path line=location.range.start.line \
    column=location.range.start.column end_line=location.range.end.line \
    end_column=location.range.end.column text=message\n\
edits=suggestions[] unit=bytes line=range.start.line column=range.start.column \
    end_line=range.end.line end_column=range.end.column text=text only=text+\n\
form=phpstan mark=.:o mark=totals.file_errors:n mark=files:ao\n\
list=files{}.messages[] scope=phpstan default=error file=^^@ line=line code=identifier \
    message=message help=tip\n\
list=errors[] scope=phpstan default=error message=.\n\
form=phpcs mark=.:o mark=totals.fixable:n mark=files:ao\n\
list=files{}.messages[] scope=phpcs unit=cells4 file=^^@ line=line column=column \
    severity=type code=source message=message\n\
form=phpmd mark=.:o mark=package:t mark=files:a mark=metadata:-\n\
list=files[].violations[] scope=phpmd file=^^file line=beginLine end_line=endLine \
    severity=priority level=1:error,2:error,3:warning,4:advice,5:advice code=rule \
    message=description url=externalInfoUrl\n\
list=errors[] scope=phpmd default=error file=fileName message=message\n\
form=brakeman mark=.:o mark=scan_info:o mark=warnings:a\n\
list=warnings[] scope=brakeman file=file line=line severity=confidence \
    level=high:error,medium:warning,weak:advice code=warning_type message=message url=link\n\
list=errors[] scope=brakeman default=error message=error\n\
form=mypy mark=.:o mark=file:t mark=line:n mark=column:n mark=severity:t mark=hint:t0\n\
list=. scope=mypy unit=bytes file=file line=line column0=column severity=severity code=code \
    message=message help=hint\n\
form=staticcheck mark=.:o mark=code:t mark=severity:t mark=location.file:t mark=message:t \
    mark=spans:- mark=hint:-\n\
list=. scope=staticcheck unit=bytes file=location.file line=location.line \
    column=location.column end_line=end.line end_column=end.column severity=severity code=code \
    message=message\n\
labels=related[] unit=bytes file=location.file line=location.line column=location.column \
    end_line=end.line end_column=end.column text=message\n\
form=rdjsonl mark=.:o mark=message:t mark=location.path:t mark=spans:- mark=hint:-\n\
list=. unit=bytes file=location.path line=location.range.start.line \
    column=location.range.start.column end_line=location.range.end.line \
    end_column=location.range.end.column severity=severity code=code.value message=message \
    url=code.url\n\
labels=related_locations[] unit=bytes file=location.path line=location.range.start.line \
    column=location.range.start.column end_line=location.range.end.line \
    end_column=location.range.end.column text=message\n\
edits=suggestions[] unit=bytes line=range.start.line column=range.start.column \
    end_line=range.end.line end_column=range.end.column text=text only=text+\n\
form=buf mark=.:o mark=path:t mark=start_line:n mark=message:t mark=location:- mark=spans:- \
    mark=hint:- mark=messages:-\n\
list=. scope=buf default=error file=path line=start_line column=start_column \
    end_line=end_line end_column=end_column code=type message=message\n\
form=rustc mark=.:o mark=message:t mark=spans:a mark=level:t mark=reason:-\n\
list=. scope=rustc severity=level code=code.code message=message aside=message~\"aborting \
    due to \"|\"Some errors have detailed explanations\"|\"For more information about\" \
    aside=message$\" warning emitted\"|\" warnings emitted\" only=level?\n\
place=spans[] file=file_name line=line_start column=column_start end_line=line_end \
    end_column=column_end only=is_primary:true\n\
labels=spans[] file=file_name line=line_start column=column_start end_line=line_end \
    end_column=column_end text=label primary=is_primary\n\
labels=children[].spans[] file=file_name line=line_start column=column_start \
    end_line=line_end end_column=column_end text=^^message only=suggested_replacement!\n\
edits=children[].spans[] file=file_name line=line_start column=column_start \
    end_line=line_end end_column=column_end text=suggested_replacement \
    only=suggested_replacement+\n\
notes=children[] text=message\n\
form=rustc-other mark=.:o mark=\"$message_type\":t mark=message:- mark=reason:-\n\
form=cargo mark=.:o mark=reason:t mark=message.spans:a\n\
list=message scope=rustc severity=level code=code.code message=message \
    aside=message~\"aborting due to \"|\"Some errors have detailed explanations\"|\"For more \
    information about\" aside=message$\" warning emitted\"|\" warnings emitted\" only=level?\n\
place=spans[] file=file_name line=line_start column=column_start end_line=line_end \
    end_column=column_end only=is_primary:true\n\
labels=spans[] file=file_name line=line_start column=column_start end_line=line_end \
    end_column=column_end text=label primary=is_primary\n\
labels=children[].spans[] file=file_name line=line_start column=column_start \
    end_line=line_end end_column=column_end text=^^message only=suggested_replacement!\n\
edits=children[].spans[] file=file_name line=line_start column=column_start \
    end_line=line_end end_column=column_end text=suggested_replacement \
    only=suggested_replacement+\n\
notes=children[] text=message\n\
form=cargo-other mark=.:o mark=reason:t mark=message:-\n\
form=markdownlint-object mark=.:o mark={}[].ruleNames:a\n\
list={}[] scope=markdownlint unit=utf16 file=^@ line=lineNumber column=errorRange[0] \
    length=errorRange[1] severity=severity code=ruleNames[0] message=ruleDescription \
    note=errorDetail url=ruleInformation\n\
form=vale mark=.:o mark={}[].Check:t mark={}[].Span:a\n\
list={}[] scope=vale end=last file=^@ line=Line column=Span[0] end_line=Line \
    end_column=Span[1] severity=Severity code=Check message=Message url=Link\n\
form=flake8-json mark=.:o mark={}[].physical_line:t0 mark={}[].line_number:n\n\
list={}[] scope=flake8 as=letter file=filename|^@ line=line_number column=column_number \
    severity=code level=e:error,f:error,w:warning,c:advice,n:warning code=code message=text\n\
form=go-vet mark=.:o mark={}{}[].posn:t\n\
list={}{}[] scope=vet unit=bytes default=warning posn=posn code=^@ message=message\n\
form=checkstyle mark=.:o mark=checkstyle:o\n\
list=checkstyle.file[].error[] unit=cells8utf16 default=error file=^^name line=line \
    column=column end_line=endline severity=severity code=source message=message \
    url=externalInfoUrl only=source~\"com.puppycrawl.\"\n\
list=checkstyle.file[].error[] unit=utf16 default=error file=^^name line=line column=column \
    end_line=endline severity=severity code=source message=message url=externalInfoUrl \
    only=source~\"eslint.rules.\"\n\
list=checkstyle.file[].error[] default=error file=^^name line=line column=column \
    end_line=endline severity=severity code=source message=message url=externalInfoUrl \
    only=source%\"com.puppycrawl.\"|\"eslint.rules.\"\n\
list=checkstyle.file[].exception[] default=error file=^^name message=\"#text\"\n\
list=checkstyle.exception[] default=error message=\"#text\"\n\
form=cppcheck mark=.:o mark=results.errors:a\n\
list=results.errors[].error[] scope=cppcheck unit=bytes file=file0 severity=severity code=id \
    message=msg note=verbose\n\
place=location[] unit=bytes file=file line=line column=column\n\
labels=location[] unit=bytes file=file line=line column=column text=info\n\
form=pmd mark=.:o mark=pmd:o\n\
list=pmd.file[].violation[] scope=pmd end=last file=^^name line=beginline \
    column=begincolumn end_line=endline end_column=endcolumn severity=priority \
    level=1:error,2:error,3:warning,4:advice,5:advice code=rule message=\"#text\" \
    url=externalInfoUrl\n\
list=pmd.error[] default=error file=filename message=msg\n\
form=jslint mark=.:o mark=jslint:o\n\
list=jslint.file[].issue[] unit=utf16 default=warning file=^^name line=line column=char \
    message=reason\n\
";
